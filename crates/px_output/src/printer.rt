// The way of a text to the host: it gathers in a buffer, and goes out in large pieces until the sink fails.
ghost use Rattle.std.specs.Prelude.{◌≡◌, [], IfErr};
ghost use Rattle.px_output.specs.declared.printer.PrintFault.TheVariants.{SinkFailed, NoMemory as OutOfMemory};
ghost use Rattle.px_output.specs.Printing.{Prints, Gathers};
ghost use Rattle.px_output.specs.View.{view, OnlyPrints};
ghost use Rattle.std.specs.Option.{option_copied};
ghost use Rattle.px_trace.specs.Names.{name_line};
ghost use Rattle.px_sem.specs.Text.{start_text, heading_text, step_text, quiet_text, reply_line, standing_text, stall_line};

use px_event::Entry;
use px_ports::Host;
use px_script::Stall;
use px_sem::{LogEntry, Move, Standing};
use px_trace::{
    LoggedLine, push_heading, push_name, push_quiet, push_reply, push_stall, push_standing,
    push_start, push_step,
};
use px_value::{Name, NoMemory};
use std::alloc::Global;
use std::marker::Model;

/// How many bytes a buffered text has before it is emitted.
const PIECE: usize = 64 * 1024;

/// Why a text was not printed to its end.
#[derive(Clone, Copy)]
pub enum PrintFault {
    /// The sink failed, or took nothing.
    SinkFailed,
    /// Memory ran out.
    NoMemory,
}

impl From<NoMemory> for PrintFault {
    ghost from_gives = { λ _ fault. fault ≡ OutOfMemory };

    fn from(_: NoMemory) -> Self {
        PrintFault::NoMemory
    }
}

/// Emits all of the text, however little the sink takes at once. It takes no memory, so only the sink can fail.
pub fn emit_all<H: Host>(host: &mut H, text: &[u8]) -> Result<(), PrintFault>
    ensures prints { Prints (view H.Host host.old) text.now (view H.Host host.new) [] [] result }
    ensures of_the_sink { IfErr result (λ fault. fault ≡ SinkFailed) }
    ensures only { OnlyPrints (view H.Host host.old) (view H.Host host.new) }
{
    let mut rest = text;
    while !rest.is_empty() {
        match host.emit(rest) {
            Ok(count) if count > 0 => rest = &rest[count..],
            _ => return Err(PrintFault::SinkFailed),
        }
    }
    Ok(())
}

/// What is printed and not yet emitted, which after each call that succeeds is less than a piece. To contracts it is that
/// text.
#[derive(Drop)]
pub struct Printer {
    alloc: Global,
    buffer: Vec<u8>,
}

impl Model for Printer {
    ghost use Rattle.std.specs.Prelude.{ℕ, List};

    ghost Value = { List ℕ };

    ghost view = { λ printer. printer.buffer.items };
}

impl Printer {
    /// A printer with nothing to emit.
    pub fn new(alloc: Global) -> Printer
        ensures { result ≡ [] }
    {
        Printer {
            alloc,
            buffer: Vec::new(alloc),
        }
    }

    /// Prints a text that was gathered before, by a printer that has nothing to emit. It takes no memory,
    /// so only the sink can fail.
    pub fn text<H: Host>(&mut self, host: &mut H, text: Vec<u8>) -> Result<(), PrintFault>
        requires { self.old ≡ [] }
        ensures gathers { Gathers H.Host host.old self.old host.new self.new text.items result }
        ensures of_the_sink { IfErr result (λ fault. fault ≡ SinkFailed) }
    {
        self.buffer = text;
        self.emit_piece(host)
    }

    /// Prints the heading of the start.
    #[tactic(auto, using(crate::proofs::Gathered::piece_gathered, crate::proofs::Gathered::nothing_gathered))]
    pub fn start<H: Host>(&mut self, host: &mut H) -> Result<(), PrintFault>
        ensures { Gathers H.Host host.old self.old host.new self.new (start_text) result }
    {
        push_start(self.alloc, &mut self.buffer)?;
        self.emit_piece(host)
    }

    /// Prints the heading of an event at its position in the history, from 1.
    #[tactic(auto, using(crate::proofs::Gathered::piece_gathered, crate::proofs::Gathered::nothing_gathered))]
    pub fn heading<H: Host>(
        &mut self,
        host: &mut H,
        position: u32,
        entry: &Entry,
    ) -> Result<(), PrintFault>
        ensures { Gathers H.Host host.old self.old host.new self.new (heading_text position entry.now) result }
    {
        push_heading(self.alloc, position, entry, &mut self.buffer)?;
        self.emit_piece(host)
    }

    /// Prints a micro step: its number, from 1, and its moves.
    #[tactic(auto, using(crate::proofs::Gathered::piece_gathered, crate::proofs::Gathered::nothing_gathered))]
    pub fn step<H: Host>(
        &mut self,
        host: &mut H,
        number: u32,
        moves: &[Move],
    ) -> Result<(), PrintFault>
        ensures { Gathers H.Host host.old self.old host.new self.new (step_text number moves.now) result }
    {
        push_step(self.alloc, number, moves, &mut self.buffer)?;
        self.emit_piece(host)
    }

    /// Prints how many micro steps led to a quiet world.
    #[tactic(auto, using(crate::proofs::Gathered::piece_gathered, crate::proofs::Gathered::nothing_gathered))]
    pub fn quiet<H: Host>(&mut self, host: &mut H, count: u32) -> Result<(), PrintFault>
        ensures { Gathers H.Host host.old self.old host.new self.new (quiet_text count) result }
    {
        push_quiet(self.alloc, count, &mut self.buffer)?;
        self.emit_piece(host)
    }

    /// Prints the line of a post.
    #[tactic(auto, using(crate::proofs::Gathered::piece_gathered, crate::proofs::Gathered::nothing_gathered))]
    pub fn reply<H: Host>(&mut self, host: &mut H, logged: &LogEntry) -> Result<(), PrintFault>
        ensures { Gathers H.Host host.old self.old host.new self.new (reply_line logged.now.entry.thread logged.now.entry.line logged.now.reply) result }
    {
        let line = LoggedLine {
            thread: logged.entry.thread,
            line: logged.entry.line,
            reply: logged.reply,
        };
        push_reply(self.alloc, &line, &mut self.buffer)?;
        self.emit_piece(host)
    }

    /// Prints how a plan stands.
    #[tactic(auto, using(crate::proofs::Gathered::piece_gathered, crate::proofs::Gathered::nothing_gathered))]
    pub fn standing<H: Host>(&mut self, host: &mut H, standing: Standing) -> Result<(), PrintFault>
        ensures { Gathers H.Host host.old self.old host.new self.new (standing_text standing) result }
    {
        push_standing(self.alloc, &standing, &mut self.buffer)?;
        self.emit_piece(host)
    }

    /// Prints the line of a wait at which a thread stands.
    #[tactic(auto, using(crate::proofs::Gathered::nothing_gathered))]
    pub fn stall<H: Host>(&mut self, host: &mut H, stall: &Stall) -> Result<(), PrintFault>
        ensures { Gathers H.Host host.old self.old host.new self.new (stall_line stall.now.thread stall.now.line stall.now.cond) result }
    {
        push_stall(
            self.alloc,
            stall.thread,
            stall.line,
            &stall.cond,
            &mut self.buffer,
        )?;
        self.emit_piece(host)
    }

    /// Prints the line of the name of an event at its position in the history, from 1.
    #[tactic(auto, using(crate::proofs::Gathered::piece_gathered, crate::proofs::Gathered::nothing_gathered))]
    pub fn name<H: Host>(
        &mut self,
        host: &mut H,
        position: u32,
        entry: &Entry,
        name: Option<&Name>,
    ) -> Result<(), PrintFault>
        ensures { Gathers H.Host host.old self.old host.new self.new
            (name_line position (record { name = option_copied name.entry; entry = entry.now })) result }
    {
        push_name(self.alloc, position, entry, name, &mut self.buffer)?;
        self.emit_piece(host)
    }

    /// Emits what is left. Only the sink can fail.
    pub fn finish<H: Host>(self, host: &mut H) -> Result<(), PrintFault>
        ensures prints { Prints (view H.Host host.old) self (view H.Host host.new) [] [] result }
        ensures of_the_sink { IfErr result (λ fault. fault ≡ SinkFailed) }
        ensures only { OnlyPrints (view H.Host host.old) (view H.Host host.new) }
    {
        emit_all(host, &self.buffer)
    }

    // Emits the buffer where it has grown to a piece. Only the sink can fail.
    fn emit_piece<H: Host>(&mut self, host: &mut H) -> Result<(), PrintFault>
        ensures gathers { Gathers H.Host host.old self.old host.new self.new [] result }
        ensures of_the_sink { IfErr result (λ fault. fault ≡ SinkFailed) }
    {
        if self.buffer.len() >= PIECE {
            emit_all(host, &self.buffer)?;
            self.buffer.clear();
        }
        Ok(())
    }
}
