// The bench for programs in other languages: one function over lent slices.
#![tactic(auto)]

ghost use Rattle.std.specs.Prelude.{◌≡◌, true, [], length};
ghost use Rattle.wire.specs.Bytes.{Shows};
ghost use Rattle.desk.specs.Program.{program_desk};
ghost use Rattle.lines.specs.Lines.{lines_after, went};
ghost use Rattle.script.specs.Lines.{line_said};

use desk::Desk;

// Plays the whole lines of a script on a new bench and lays the answers over the front of out. It answers how many characters
// they are, and leaves in read how many characters of the script they answer: all whole lines, or those before the first whose
// answer does not fit.
#[unsafe(no_mangle)]
pub extern "C" fn amberdrone_bench(script: &[u8], out: &mut [u8], read: &mut usize) -> usize
    ensures shows { Shows (went line_said (program_desk true) (lines_after [] script.now) (length out.old)).out out.old out.new result }
    ensures read_after { read.new ≡ (went line_said (program_desk true) (lines_after [] script.now) (length out.old)).read }
{
    let desk = Desk::program(true);
    let went = script::run(desk, script, out);
    *read = went.read;
    went.written
}
