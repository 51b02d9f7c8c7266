//! What answers the records of a trace.

use crate::command::Fault;
use crate::full::add_full_line;
use crate::output::{OUTPUT_ROOM, add_sent_line, write_cleaned_line, write_outcome};
use access_list::AccessList;
use bucket::Shelf;
use lines::{Replies, Trouble};
use ot_base::Minute;
use ot_io::{LineFault, ReplaySettings, Sink};
use request_handler::{Draws, Words, asks_for_all, carry_out, clean_all, serve};
use std::alloc::{AllocError, Global};
use trace_text::{DATAGRAM_BYTES, RECORD_BYTES, Received, Record, read_record};
use tracker_core::{plan_connection, plan_udp};
use udp_wire::REPLY_ROOM;

/// A tracker on one thread, and room for one record.
#[derive(Drop)]
pub struct Answerer {
    pub settings: ReplaySettings,
    pub shelf: Shelf,
    words: Words,
    alloc: Global,
    /// Where the bytes of a record are put.
    bytes: [u8; RECORD_BYTES],
    /// Where the reply to a datagram is put.
    reply: [u8; REPLY_ROOM],
    /// Where the record's output line is put, or a piece of it.
    output: [u8; OUTPUT_ROOM],
}

impl Answerer {
    ghost use Rattle.std.specs.Prelude.{◌≡◌, ◌≤◌, ℕ, [], Err, IfOk, List, Ok, Option};
    ghost use Rattle.std.specs.Prelude.{option_copied};
    ghost use Rattle.access_list.specs.Access.{Listing};
    ghost use Rattle.ot_base.specs.Address.{family_of};
    ghost use Rattle.ot_base.specs.declared.address.Family.TheVariants.{Four};
    ghost use Rattle.ot_io.specs.Counts.{Rose};
    ghost use Rattle.bucket.specs.Shelf.{AllStand};
    ghost use Rattle.lines.specs.Responses.{Responds};
    ghost use Rattle.lines.specs.Streams.{IsLaterSink};
    ghost use Rattle.trace_text.specs.Trace.{line_in, line_of};
    ghost use Rattle.offline.specs.Command.{IsOffered};
    ghost use Rattle.offline.specs.Follows.{AnswersAt, IsShelfOf, RefusesRecord};
    ghost use Rattle.offline.specs.Replay.{no_calls};

    /// A tracker that nobody has called.
    pub fn new(alloc: Global, settings: &ReplaySettings) -> Result<Answerer, AllocError>
        requires { IsOffered settings.now }
        ensures settings { IfOk result (λ answerer. answerer.settings ≡ settings.now) }
        ensures shelf { IfOk result (λ answerer. IsShelfOf settings.now answerer.shelf) }
        ensures stand { IfOk result (λ answerer.
            AllStand (no_calls settings.now.bits) answerer.shelf) }
    {
        Ok(Answerer {
            settings: *settings,
            shelf: Shelf::new(alloc, settings.bits, settings.limits, false)?,
            words: Words::new(settings.seed, Draws::All),
            alloc,
            bytes: [0; RECORD_BYTES],
            reply: [0; REPLY_ROOM],
            output: [0; OUTPUT_ROOM],
        })
    }

    /// Adds the output line of the record that a line is. A tracker with an access list admits what
    /// that says.
    pub fn answer<O: Sink>(
        &mut self,
        access: Option<&AccessList>,
        line: &[u8],
        replies: &mut Replies,
        out: &mut O,
    ) -> Result<(), Trouble<Fault>>
        requires of { IsShelfOf self.old.settings self.old.shelf }
        ensures settings { self.new.settings ≡ self.old.settings }
        ensures still { IsShelfOf self.old.settings self.new.shelf }
        ensures responds { Responds
            (AnswersAt self.old.settings (option_copied access.entry)) RefusesRecord
            self.old.shelf self.new.shelf line.now
            (O.written out.old) (O.written out.new) replies.old replies.new result }
        ensures fault { result ≡ Err Trouble.WriteFault
            → Rose (O.faults out.old) (O.faults out.new) }
        ensures later { IsLaterSink O.faults O.aside out.old out.new }
    {
        match read_record(line, &mut self.bytes) {
            Ok(Record::Datagram(received)) => self.answer_datagram(access, received, replies, out),
            Ok(Record::Connection(received)) => {
                self.answer_connection(access, received, replies, out)
            }
            Ok(Record::Clean { seconds }) => self.clean(seconds, replies, out),
            Err(fault) => Err(Trouble::Refused(Fault::Line(LineFault::Trace(fault)))),
        }
    }

    /// Adds the output line of a datagram, whose bytes stand at the front of the record's.
    fn answer_datagram<O: Sink>(
        &mut self,
        access: Option<&AccessList>,
        received: Received,
        replies: &mut Replies,
        out: &mut O,
    ) -> Result<(), Trouble<Fault>>
        requires of { IsShelfOf self.old.settings self.old.shelf }
        requires four { family_of received.from.addr ≡ Four }
        requires fits { received.len ≤ DATAGRAM_BYTES }
        ensures settings { self.new.settings ≡ self.old.settings }
        ensures still { IsShelfOf self.old.settings self.new.shelf }
        ensures responds { (line : List ℕ) →
            line_of line ≡ Ok (line_in (Record.Datagram received) self.old.bytes) →
            Responds (AnswersAt self.old.settings (option_copied access.entry)) RefusesRecord
            self.old.shelf self.new.shelf line
            (O.written out.old) (O.written out.new) replies.old replies.new result }
        ensures fault { result ≡ Err Trouble.WriteFault
            → Rose (O.faults out.old) (O.faults out.new) }
        ensures later { IsLaterSink O.faults O.aside out.old out.new }
    {
        let minute = Minute::of_seconds(received.seconds);
        let bytes = &self.bytes[..received.len];
        let plan = plan_udp(bytes, received.from, minute, &self.settings.secret, access);
        self.words.draw_for_datagram(&plan);
        let outcome = carry_out(
            &mut self.shelf,
            minute,
            &plan,
            self.words.last(),
            &mut self.reply,
        );
        let Some(len) = write_outcome(outcome, &self.reply, &mut self.output) else {
            return Err(Trouble::NoMemory);
        };
        replies.add(out, &self.output[..len])?;
        Ok(())
    }

    /// Adds the output line of a connection, whose bytes stand at the front of the record's.
    fn answer_connection<O: Sink>(
        &mut self,
        access: Option<&AccessList>,
        received: Received,
        replies: &mut Replies,
        out: &mut O,
    ) -> Result<(), Trouble<Fault>>
        requires of { IsShelfOf self.old.settings self.old.shelf }
        requires four { family_of received.from.addr ≡ Four }
        requires fits { received.len ≤ RECORD_BYTES }
        ensures settings { self.new.settings ≡ self.old.settings }
        ensures still { IsShelfOf self.old.settings self.new.shelf }
        ensures responds { (line : List ℕ) →
            line_of line ≡ Ok (line_in (Record.Connection received) self.old.bytes) →
            Responds (AnswersAt self.old.settings (option_copied access.entry)) RefusesRecord
            self.old.shelf self.new.shelf line
            (O.written out.old) (O.written out.new) replies.old replies.new result }
        ensures fault { result ≡ Err Trouble.WriteFault
            → Rose (O.faults out.old) (O.faults out.new) }
        ensures later { IsLaterSink O.faults O.aside out.old out.new }
    {
        let minute = Minute::of_seconds(received.seconds);
        let bytes = &self.bytes[..received.len];
        let plan = plan_connection(self.alloc, bytes, received.from, access, self.settings.full)?;
        if asks_for_all(&plan) {
            return add_full_line(
                self.alloc,
                &mut self.shelf,
                minute,
                replies,
                out,
                &mut self.output,
            );
        }
        self.words.draw_for_connection(&plan);
        let sent = serve(
            self.alloc,
            &mut self.shelf,
            minute,
            &plan,
            self.words.last(),
        )?;
        add_sent_line(replies, out, &sent, &mut self.output)?;
        Ok(())
    }

    /// Cleans at a second, and adds the output line.
    fn clean<O: Sink>(
        &mut self,
        seconds: u64,
        replies: &mut Replies,
        out: &mut O,
    ) -> Result<(), Trouble<Fault>>
        requires of { IsShelfOf self.old.settings self.old.shelf }
        ensures settings { self.new.settings ≡ self.old.settings }
        ensures still { IsShelfOf self.old.settings self.new.shelf }
        ensures responds { (line : List ℕ) (access : Option Listing) →
            line_of line ≡ Ok (line_in (Record.Clean seconds) self.old.bytes) →
            Responds (AnswersAt self.old.settings access) RefusesRecord
            self.old.shelf self.new.shelf line
            (O.written out.old) (O.written out.new) replies.old replies.new result }
        ensures fault { result ≡ Err Trouble.WriteFault
            → Rose (O.faults out.old) (O.faults out.new) }
        ensures later { IsLaterSink O.faults O.aside out.old out.new }
    {
        let held = clean_all(&mut self.shelf, Minute::of_seconds(seconds));
        let len = write_cleaned_line(held, &mut self.output);
        replies.add(out, &self.output[..len])?;
        Ok(())
    }
}
