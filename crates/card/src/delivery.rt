// A write in several frames: its opening, and the frames of file bytes.
ghost use Rattle.std.specs.Prelude.{[], ◌≤◌, length};
ghost use Rattle.tables.specs.Choice.{pick};
ghost use Rattle.wire.specs.Bytes.{word, Shows};
ghost use Rattle.rows.specs.Rows.{ok};
ghost use Rattle.checks.specs.Order.{word_of};
ghost use Rattle.card.specs.View.{view};
ghost use Rattle.card.specs.Outcome.{Answered};
ghost use Rattle.card.specs.Events.{refused, laid_into, reply_room, chain_opened, delivered, bytes_sent};

use super::{Card, Reply};
use chains::Chain;
use checks::Status;

impl Card {
    // A refusal with this status.
    pub(crate) fn refuse(self, status: Status, reply: &mut [u8]) -> Reply
        requires { reply_room ≤ length reply.old }
        ensures { Answered (laid_into self (refused (view self) (word_of status))) reply.old reply.new result }
    {
        let len = Card::say(status.word(), reply);
        Reply::sent(self.ended(), len)
    }

    // The opening of a chain: a WriteData without its bytes and its MAC.
    pub fn open_chain(self, frame: &[u8], reply: &mut [u8]) -> Reply
        ensures { Answered (chain_opened self frame.now (length reply.old)) reply.old reply.new result }
    {
        if let Some(refusal) = self.bench_refusal(reply.len()) {
            return Reply::refused(self, refusal);
        }
        let channel = self.channel;
        let checked = checks::check(
            true,
            self.settings,
            self.keys,
            self.purse,
            self.log,
            channel,
            frame,
        );
        let admitted = match checked {
            Ok(admitted) => admitted,
            Err(refused) => return self.refuse(refused.status, reply),
        };
        let next = channel.chained(Chain::announced(admitted.role, frames::data(frame)));
        Reply::sent(self.on_channel(next), 0)
    }

    // Lays 9100 behind the last frame of a chain, nothing behind another, and answers the reply's length.
    fn close_last(last: bool, reply: &mut [u8]) -> usize
        requires { reply_room ≤ length reply.old }
        ensures { Shows (pick last (word ok) []) reply.old reply.new result }
    {
        if last {
            return Card::say(Card::OK, reply);
        }
        0
    }

    // An accepted frame of file bytes.
    fn deliver(self, bytes: &[u8], reply: &mut [u8]) -> Reply
        requires { reply_room ≤ length reply.old }
        ensures { Answered (laid_into self (delivered (view self) bytes.now)) reply.old reply.new result }
    {
        let channel = self.channel;
        let chain = channel.chain;
        let n = bytes.len();
        let last = chain.left as usize <= n;
        let len = Card::close_last(last, reply);
        let card = Card {
            files: self.files.write(chain.file, chain.next_place(), bytes),
            channel: channel.advanced(n),
            ..self
        };
        Reply::sent(card, len)
    }

    // A frame of file bytes.
    pub fn file_frame(self, bytes: &[u8], reply: &mut [u8]) -> Reply
        ensures { Answered (bytes_sent self bytes.now (length reply.old)) reply.old reply.new result }
    {
        if let Some(refusal) = self.bench_refusal(reply.len()) {
            return Reply::refused(self, refusal);
        }
        match checks::check_bytes(self.channel.chain, bytes) {
            Ok(_) => self.deliver(bytes, reply),
            Err(status) => self.refuse(status, reply),
        }
    }
}
