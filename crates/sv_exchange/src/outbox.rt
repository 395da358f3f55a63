//! Writing messages as frames, several at once.
ghost use Rattle.std.specs.Prelude.{◌≡◌, ◌≢◌, ◌+◌, ◌≤◌, [], false, IfOk, length, vec_len, vec_capacity};
ghost use Rattle.sv_link.specs.Ends.{Sends, SentCause};
ghost use Rattle.sv_frame.specs.Frames.{greatest_frame, frame};
ghost use Rattle.sv_exchange.specs.Outgoing.{KeepsBack, LeavesUnsent, Posts};

use crate::message::Message;
use std::alloc::{AllocError, Global};
use std::marker::Model;
use sv_frame::{GREATEST_FRAME, PREFIX, put_frame};
use sv_link::{End, Sent, send_all};

/// Messages that are to be sent together. Contracts see the bytes of their frames.
///
/// Its room, for one frame of the greatest length, is taken once, by `new`. Each payload is written into one buffer, which grows to the longest.
#[derive(Drop)]
pub struct Outbox {
    bytes: Vec<u8>,
    payload: Vec<u8>,
}

impl Model for Outbox {
    ghost use Rattle.std.specs.Prelude.{List, ℕ, ◌≤◌};
    ghost use Rattle.std.specs.Vec.{vec_len, vec_capacity};
    ghost use Rattle.sv_frame.specs.Frames.{greatest_frame};

    ghost Value = { List ℕ };

    ghost view = { λ o. o.bytes.items };

    ghost invariant = { λ o. (vec_len o.bytes ≤ greatest_frame) × (greatest_frame ≤ vec_capacity o.bytes) };
}

impl Outbox {
    /// Nothing waits.
    pub fn new(alloc: Global) -> Result<Outbox, AllocError>
        ensures { IfOk result (λ outbox. outbox ≡ []) }
    {
        Ok(Outbox {
            bytes: Vec::with_capacity(alloc, GREATEST_FRAME)?,
            payload: Vec::new(alloc),
        })
    }

    /// Puts a message's frame behind what waits. Where it does not fit, what waits is sent first.
    pub fn put<M: Message, E: End>(&mut self, message: &M, end: &mut E) -> Sent
        requires open { (E.told end.old).closed ≡ false }
        requires message { M.is_message message.now }
        ensures posts { Posts (E.told end.old) self.old (frame (M.spelled message.now)) result (E.told end.new) self.new }
        ensures kept { KeepsBack self.old (length (frame (M.spelled message.now))) (E.told end.old) (E.told end.new) }
        ensures cause { SentCause (E.faults end.old) (E.faults end.new) result }
        ensures calm { E.calm end.old → (result ≢ Sent.Failed) × E.calm end.new }
    {
        if message.encode_into(&mut self.payload).is_err() {
            return Sent::Memory;
        }
        match make_room(&mut self.bytes, PREFIX + self.payload.len(), end) {
            Sent::Whole => {
                put_frame(&self.payload, &mut self.bytes).unwrap();
                Sent::Whole
            }
            Sent::Failed => Sent::Failed,
            Sent::Memory => Sent::Memory,
        }
    }

    /// Sends all that waits.
    pub fn flush<E: End>(&mut self, end: &mut E) -> Sent
        requires open { (E.told end.old).closed ≡ false }
        ensures sends { Sends (E.told end.old) self.old result (E.told end.new) }
        ensures left { LeavesUnsent result self.old self.new }
        ensures cause { SentCause (E.faults end.old) (E.faults end.new) result }
        ensures calm { E.calm end.old → (result ≢ Sent.Failed) × E.calm end.new }
    {
        send_off(&mut self.bytes, end)
    }
}

/// Sends bytes that wait, where so many more do not fit behind them.
fn make_room<E: End>(bytes: &mut Vec<u8>, size: usize, end: &mut E) -> Sent
    requires open { (E.told end.old).closed ≡ false }
    requires size { size ≤ greatest_frame }
    requires waiting { vec_len bytes.old ≤ greatest_frame }
    ensures posts { Posts (E.told end.old) bytes.old.items [] result (E.told end.new) bytes.new.items }
    ensures kept { KeepsBack bytes.old.items size (E.told end.old) (E.told end.new) }
    ensures room { result ≡ Sent.Whole → length bytes.new.items + size ≤ greatest_frame }
    ensures capacity { vec_capacity bytes.new ≡ vec_capacity bytes.old }
    ensures cause { SentCause (E.faults end.old) (E.faults end.new) result }
    ensures calm { E.calm end.old → (result ≢ Sent.Failed) × E.calm end.new }
{
    if size <= GREATEST_FRAME - bytes.len() {
        return Sent::Whole;
    }
    send_off(bytes, end)
}

/// Sends all bytes that wait.
fn send_off<E: End>(bytes: &mut Vec<u8>, end: &mut E) -> Sent
    requires open { (E.told end.old).closed ≡ false }
    ensures sends { Sends (E.told end.old) bytes.old.items result (E.told end.new) }
    ensures left { LeavesUnsent result bytes.old.items bytes.new.items }
    ensures capacity { vec_capacity bytes.new ≡ vec_capacity bytes.old }
    ensures cause { SentCause (E.faults end.old) (E.faults end.new) result }
    ensures calm { E.calm end.old → (result ≢ Sent.Failed) × E.calm end.new }
{
    match send_all(end, bytes) {
        Sent::Whole => {
            bytes.clear();
            Sent::Whole
        }
        Sent::Failed => Sent::Failed,
        Sent::Memory => Sent::Memory,
    }
}
