// What GetFileSettings shows of a file: its kind, option byte, rights, and what its kind has.
#![tactic(auto)]

ghost use Rattle.std.specs.Prelude.{◌≡◌, ◌+◌, ◌≤◌, length};
ghost use Rattle.std.specs.Int.{w32};
ghost use Rattle.std.proofs.Common.{of_z};
ghost use Rattle.wire.specs.Bytes.{laid, Shows};
ghost use Rattle.description.specs.Description.{figure, head_of, of_value, switches_of, option_of, described_in};

use logfile::Log;
use roles::Role;
use settings::{FileSettings, Settings};

// Lays the first width bytes of v from a place on.
fn lay_figure(v: u32, width: usize, at: usize, reply: &mut [u8])
    requires { (width ≤ 4) × (at + width ≤ length reply.old) }
    ensures { reply.new ≡ laid reply.old at (figure width v) }
{
    let bytes = wire::four_of(v);
    wire::lay(reply, at, &bytes[0..width]);
}

// Lays kind, option byte and rights over the front.
fn lay_head(kind: u8, option: u8, rights: u16, reply: &mut [u8])
    requires { 4 ≤ length reply.old }
    ensures { Shows (head_of kind option rights) reply.old reply.new 4 }
{
    wire::lay(reply, 0, &[kind, option]);
    lay_figure(rights as u32, 2, 2, reply);
}

// Bit 0 LimitedCredit on, bit 1 free GetValue.
fn switches(settings: Settings) -> u8
    ensures { result ≡ switches_of settings }
{
    u8::from(settings.limited) + 2 * u8::from(settings.free)
}

// 01h for a file in MAC mode, else 00h.
fn option_of(file: FileSettings) -> u8
    ensures { result ≡ option_of file }
{
    u8::from(file.maced)
}

// Lays the settings of the value file over the front of reply.
fn show_value(
    settings: Settings,
    option: u8,
    rights: u16,
    allowance: u32,
    reply: &mut [u8],
) -> usize
    requires { 17 ≤ length reply.old }
    ensures { Shows (of_value option rights (of_z w32 settings.limits.lower) (of_z w32 settings.limits.upper) allowance (switches_of settings)) reply.old reply.new result }
{
    let limits = settings.limits;
    lay_head(0x02, option, rights, reply);
    lay_figure(whole::bits(limits.lower), 4, 4, reply);
    lay_figure(whole::bits(limits.upper), 4, 8, reply);
    lay_figure(allowance, 4, 12, reply);
    lay_figure(switches(settings) as u32, 1, 16, reply);
    17
}

// Lays the settings of the file of a role over the front of reply.
pub fn show(settings: Settings, allowance: u32, entries: u8, role: Role, reply: &mut [u8]) -> usize
    ensures { Shows (described_in (length reply.old) settings allowance entries role) reply.old reply.new result }
{
    if reply.len() < 17 {
        return 0;
    }
    let file = settings.file(role);
    let option = option_of(file);
    if role.is_data() {
        lay_head(0x00, option, file.rights, reply);
        lay_figure(role.size() as u32, 3, 4, reply);
        return 7;
    }
    if role.is_value() {
        return show_value(settings, option, file.rights, allowance, reply);
    }
    lay_head(0x04, option, file.rights, reply);
    lay_figure(Log::ENTRY as u32, 3, 4, reply);
    lay_figure(Log::MOST as u32, 3, 7, reply);
    lay_figure(entries as u32, 3, 10, reply);
    13
}
