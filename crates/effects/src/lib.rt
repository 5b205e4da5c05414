// What a command does to each part of a card. Each function answers for every command and data field.
#![tactic(auto)]

ghost use Rattle.std.specs.Prelude.{◌≡◌};
ghost use Rattle.logfile.specs.View.{view, put_stored};
ghost use Rattle.effects.specs.Effects.{journal_after, stored_after, files_after};
ghost use Rattle.effects.specs.Guarded.{purse_in};

use columns::table;
use datafiles::Files;
use limits::Limits;
use logfile::{Log, Stored};
use purse::Purse;
use roles::Role;

// The value file after the command.
#[tactic(auto, unfolding(crate::specs::Guarded::purse_in, tables::specs::Choice::pick))]
pub fn next_purse(purse: Purse, limits: Limits, ins: u8, d: &[u8]) -> Purse
    ensures { result ≡ purse_in limits ins d.now purse }
{
    let amount = wire::le4_at(d, 1);
    match ins {
        table::CREDIT => purse.credit(limits, amount),
        table::DEBIT => purse.debit(limits, amount),
        table::LIMITED_CREDIT => purse.rebook(limits, amount),
        table::COMMIT_TRANSACTION => purse.commit(),
        table::ABORT_TRANSACTION => purse.drop_pending(),
        _ => purse,
    }
}

// The log after the command, and the slot bytes that it stored.
#[tactic(auto, using(logfile::proofs::Laws::put_view), unfolding(crate::specs::Effects::journal_after, crate::specs::Effects::stored_after, logfile::specs::View::put_stored, tables::specs::Choice::pick))]
pub fn next_log(log: Log, ins: u8, d: &[u8]) -> Stored
    ensures { result ≡ put_stored log (stored_after ins (view log)) (journal_after ins d.now (view log)) }
{
    let log = match ins {
        table::COMMIT_TRANSACTION => return log.commit(),
        table::WRITE_RECORD => log.write(wire::le3_at(d, 1), frames::bytes_in(d)),
        table::CLEAR_RECORD_FILE => log.clear(),
        table::ABORT_TRANSACTION => log.drop_pending(),
        _ => log,
    };
    Stored { log, stored: 0 }
}

// The data files after the command.
#[tactic(auto, unfolding(crate::specs::Effects::files_after, tables::specs::Choice::pick))]
pub fn next_files(files: Files, ins: u8, role: Role, d: &[u8]) -> Files
    ensures { result ≡ files_after ins role d.now files }
{
    if ins == table::WRITE_DATA {
        let at = wire::le3_at(d, 1);
        return files.write(role, at as usize, frames::bytes_in(d));
    }
    files
}
