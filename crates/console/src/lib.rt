// A player on standard input and output: input is read in blocks, and all whole lines of a block are answered before the next read.
#![tactic(auto)]

use input::Block;
use lines::Player;
use std::io;

// Lets a player play the input until it ends, in each turn as many lines as have room for their answers in the buffer out. Both
// buffers are made once: to fill one with zeros takes as long as many answers. No run uses up the turns.
pub fn serve<R: Input + Print, P: Player>(
    rt: &R,
    player: &P,
    mut state: P::State,
) -> io::Result<()> {
    let mut input = rt.reader();
    let mut buf = [0; 65536];
    let mut out = [0; 65536];
    let mut block = Block::More(0);
    let mut at = 0;
    for _ in 0..u64::MAX {
        let end = block.end();
        let progress = player.play(state, &buf[at..end], &mut out);
        rt.write_all(&out[..progress.written])?;
        state = progress.state;
        if 0 < progress.read {
            at += progress.read;
            continue;
        }
        if let Block::Last(_) = block {
            return Ok(());
        }
        let held = blocks::keep_rest(&mut buf, at, end);
        block = Block::read(&mut input, held, &mut buf);
        at = 0;
    }
    Ok(())
}
