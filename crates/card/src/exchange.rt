// A command and its reply.
ghost use Rattle.std.specs.Prelude.{◌≡◌, true, false, ◌+◌, ◌≤◌, length};
ghost use Rattle.tables.specs.Choice.{pick};
ghost use Rattle.wire.specs.Bytes.{laid_in, word};
ghost use Rattle.modes.specs.Modes.{mac_size};
ghost use Rattle.columns.specs.Table.{shows, authenticate_first, authenticate_second};
ghost use Rattle.card.specs.View.{view, broken};
ghost use Rattle.card.specs.Outcome.{Answered};
ghost use Rattle.card.specs.Events.{accepted_plain, laid_into, reply_room, data_room, commanded};
ghost use Rattle.card.specs.Accepted.{Granted};
ghost use Rattle.card.specs.Sealing.{Sealed};

use super::{Card, Reply};
use channel::{Channel, Inputs};
use columns::table;
use roles::Role;

impl Card {
    // Whether the command's reply has data.
    fn shows(ins: u8) -> bool
        ensures { result ≡ shows ins }
    {
        let read = (ins == table::READ_DATA)
            | (ins == table::GET_VALUE)
            | (ins == table::READ_RECORDS);
        read | (ins == table::GET_FILE_SETTINGS)
    }

    // Lays the status behind n bytes of reply, and answers the length of them all.
    fn close(status: u16, n: usize, reply: &mut [u8]) -> usize
        requires { n ≤ data_room }
        ensures { (reply.new ≡ laid_in reply.old n (word status)) × (result ≡ n + 2) }
    {
        let two = wire::word_of(status);
        wire::lay(reply, n, &two);
        n + 2
    }

    // Lays behind the n bytes of data their MAC, if the command had one, and 9100.
    fn seal(channel: Channel, maced: bool, n: usize, reply: &mut [u8]) -> usize
        requires { (n + pick maced mac_size 0 ≤ data_room) × (reply_room ≤ length reply.old) }
        ensures { Sealed channel maced n reply.old reply.new result }
    {
        if maced {
            let stage = channel.stage;
            let secret = channel.secret;
            let ti = channel.ti;
            let mac = sealing::seal(secret, 0x00, stage.counter(), ti, &reply[0..n]);
            wire::lay(reply, n, &mac);
            return Card::close(Card::OK, n + modes::MAC_SIZE, reply);
        }
        Card::close(Card::OK, n, reply)
    }

    // An accepted first part of an authentication; which file its data field would name is nothing to it.
    fn begun(self, inputs: Inputs, role: Role, d: &[u8], reply: &mut [u8]) -> Reply
        requires { reply_room ≤ length reply.old }
        ensures { Answered (laid_into self (accepted_plain false (view self) inputs authenticate_first role d.now)) reply.old reply.new result }
    {
        let bytes = authentication::show_first(self.keys, inputs, d);
        wire::lay(reply, 0, &bytes);
        let len = Card::close(Card::SECOND_PART, 16, reply);
        Reply::sent(self.on_channel(authentication::begin(inputs, d)), len)
    }

    // An accepted second part.
    fn opened(self, inputs: Inputs, role: Role, d: &[u8], reply: &mut [u8]) -> Reply
        requires { (reply_room ≤ length reply.old) × (length d.now ≡ 32) }
        ensures { Answered (laid_into self (accepted_plain false (view self) inputs authenticate_second role d.now)) reply.old reply.new result }
    {
        let keys = self.keys;
        let channel = self.channel;
        let bytes = authentication::show_second(keys, channel, d);
        wire::lay(reply, 0, &bytes);
        let len = Card::close(Card::OK, 32, reply);
        Reply::sent(self.on_channel(authentication::open(keys, channel, d)), len)
    }

    // An accepted command that shows something.
    fn shown(
        self,
        maced: bool,
        inputs: Inputs,
        ins: u8,
        role: Role,
        d: &[u8],
        reply: &mut [u8],
    ) -> Reply
        requires { (shows ins ≡ true) × Granted (view self).core maced ins role d.now × (broken self ≡ false) × (reply_room ≤ length reply.old) }
        ensures { Answered (laid_into self (accepted_plain maced (view self) inputs ins role d.now)) reply.old reply.new result }
    {
        let next = self.channel.counted();
        let card = self.on_channel(next);
        let n = replies::show(
            self.settings,
            self.files,
            self.purse,
            self.log,
            ins,
            role,
            d,
            reply,
        );
        let len = Card::seal(next, maced, n, reply);
        Reply::sent(card, len)
    }

    // A command, with what the bench hands in and a buffer for its reply. Each way out makes its card once: the files are long,
    // and a copy of them costs more than all tests.
    pub fn command(self, frame: &[u8], inputs: Inputs, reply: &mut [u8]) -> Reply
        ensures { Answered (commanded self frame.now inputs (length reply.old)) reply.old reply.new result }
    {
        if let Some(refusal) = self.bench_refusal(reply.len()) {
            return Reply::refused(self, refusal);
        }
        let channel = self.channel;
        let checked = checks::check(
            false,
            self.settings,
            self.keys,
            self.purse,
            self.log,
            channel,
            frame,
        );
        let admitted = match checked {
            Ok(admitted) => admitted,
            Err(refused) => return self.refuse(refused.status, reply),
        };
        let maced = admitted.maced;
        let role = admitted.role;
        let ins = wire::byte_at(frame, 1);
        let d = modes::plain(maced, frames::data(frame));
        if ins == table::AUTHENTICATE_FIRST {
            return self.begun(inputs, role, d, reply);
        }
        if ins == table::AUTHENTICATE_SECOND {
            return self.opened(inputs, role, d, reply);
        }
        if Card::shows(ins) {
            return self.shown(maced, inputs, ins, role, d, reply);
        }
        let next = channel.counted();
        // A copy of the channel for its MAC is made where there is one.
        let mut len = 0;
        if maced {
            len = Card::seal(next, maced, 0, reply);
        } else {
            len = Card::close(Card::OK, 0, reply);
        }
        if ins == table::WRITE_DATA {
            let card = Card {
                files: effects::next_files(self.files, table::WRITE_DATA, role, d),
                channel: next,
                ..self
            };
            return Reply::sent(card, len);
        }
        let after = effects::next_log(self.log, ins, d);
        let card = Card {
            purse: effects::next_purse(self.purse, self.settings.limits, ins, d),
            log: after.log,
            channel: next,
            ..self
        };
        Reply {
            card,
            refusal: None,
            stored: after.stored,
            len,
        }
    }
}
