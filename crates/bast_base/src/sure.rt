// A source that never fails, and a sink that fails only where it has no room left.
ghost use Rattle.std.specs.Prelude.{◌≡◌, ◌-◌, ◌++◌, [], length, drop, take, min, Option, Some, if◌then◌else◌, is_err, nat_lt, nat_eq, ◌&&◌, IfOk, IsOk, IsSome, OnErr};
ghost use Rattle.std.specs.Result.{result_unwrap_or};
ghost use Rattle.std.specs.Io.KnownBytes.{WriteAppends};
ghost use Rattle.bast_base.specs.Causes.{HasCause};
ghost use Rattle.bast_base.specs.Sink.{TakesFront, UsesSpare};
ghost use Rattle.bast_base.specs.Source.{Puts, Tells};
ghost use Rattle.bast_base.specs.Steps.{raised};

use crate::{Failed, Inlet, Sink, Source};
use std::marker::Model;

/// A source over memory that never fails. A read takes a prefix of what is left, and nothing only where nothing is left
/// or there is no room.
#[derive(Drop)]
pub struct SureSource {
    bytes: Vec<u8>,
    at: usize,
}

impl Model for SureSource {
    ghost use Rattle.std.specs.Prelude.{List, ℕ, ◌≤◌, length, drop};

    ghost Value = { List ℕ };

    ghost view = { λ s. drop s.at s.bytes.items };

    ghost invariant = { λ s. s.at ≤ length s.bytes.items };
}

impl SureSource {
    /// All the bytes are left to read.
    pub fn new(bytes: Vec<u8>) -> SureSource
        ensures { result ≡ bytes.items }
    {
        SureSource { bytes, at: 0 }
    }
}

impl<L> Source<L> for SureSource {
    ghost left = { λ s. Some s };

    ghost faults = { λ _. 0 };

    fn read(&mut self, into: &mut Inlet<L>) -> Result<usize, Failed>
        ensures puts { IfOk result (Puts into.old into.new) }
        ensures puts_none { OnErr result (into.new ≡ into.old) }
        ensures tells { Tells (Some self.old) (Some self.new) into.old into.new result }
        ensures cause { HasCause 0 0 result }
        ensures sure { IsOk result }
    {
        let left = &self.bytes[self.at..];
        let count = left.len().min(into.len());
        into.put(&left[..count]);
        self.at += count;
        Ok(count)
    }
}

/// A sink over memory, which writes over the bytes of its room and tells how many are left: only a write of a piece that
/// comes where none is left fails.
#[derive(Drop)]
pub struct SureSink {
    room: Vec<u8>,
    at: usize,
    faults: u64,
}

impl Model for SureSink {
    ghost use Rattle.std.specs.Prelude.{◌≤◌, ◌-◌, length, take};
    ghost use Rattle.bast_base.specs.Memory.{RoomState};

    ghost Value = { RoomState };

    ghost view = { λ s. record { written = take s.at s.room.items; spare = length s.room.items - s.at; faults = s.faults } };

    ghost invariant = { λ s. s.at ≤ length s.room.items };
}

impl SureSink {
    /// Nothing is written at first, and it writes over the bytes of `room` from its front.
    pub fn new(room: Vec<u8>) -> SureSink
        ensures { result ≡ record { written = []; spare = length room.items; faults = 0 } }
    {
        SureSink {
            room,
            at: 0,
            faults: 0,
        }
    }

    /// What was written.
    pub fn written(&self) -> &[u8]
        ensures { result.now ≡ self.now.written }
    {
        &self.room[..self.at]
    }
}

impl Sink for SureSink {
    ghost written = { λ s. Some s.written };

    ghost spare = { λ s. Some s.spare };

    ghost faults = { λ s. s.faults };

    fn write(&mut self, piece: &[u8]) -> Result<usize, Failed>
        ensures front { TakesFront piece.now result }
        ensures tells { WriteAppends (Some self.old.written) (Some self.new.written) result piece.now }
        ensures cause { HasCause self.old.faults self.new.faults result }
        ensures spare { UsesSpare (Some self.old.spare) (Some self.new.spare) self.old.faults self.new.faults piece.now result }
        ensures fails { is_err result ≡ (nat_lt 0 (length piece.now) && nat_eq self.old.spare 0) }
        ensures state { self.new ≡ record {
          written = self.old.written ++ take (result_unwrap_or result 0) piece.now;
          spare = self.old.spare - result_unwrap_or result 0;
          faults = (if is_err result then raised self.old.faults 1 else self.old.faults);
        } }
    {
        let spare = self.room.len() - self.at;
        if !piece.is_empty() && spare == 0 {
            self.faults = self.faults.saturating_add(1);
            return Err(Failed);
        }
        let count = piece.len().min(spare);
        self.room[self.at..self.at + count].copy_from_slice(&piece[..count]);
        self.at += count;
        Ok(count)
    }

    fn flush(&mut self) -> Result<(), Failed>
        ensures keeps { Some self.new.written ≡ Some self.old.written }
        ensures keeps_spare { Some self.new.spare ≡ Some self.old.spare }
        ensures cause { HasCause self.old.faults self.new.faults result }
        ensures sure { IsSome (Some self.old.spare) → IsOk result × (self.new.faults ≡ self.old.faults) }
        ensures succeeds { IsOk result }
        ensures state { self.new ≡ self.old }
    {
        Ok(())
    }
}
