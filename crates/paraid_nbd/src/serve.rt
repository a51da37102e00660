//! The service: the options, and then one request after the other.
ghost use Rattle.std.specs.Prelude.{◌≡◌, ◌≢◌, ◌*◌, ◌^◌, ◌≤◌, ◌<◌, ◌++◌, ℕ, List, length, min, IfOk, IfErr, OnOk, IsTrue};
ghost use Rattle.paraid_nbd.specs.Asked.{KeepsBy};
ghost use Rattle.paraid_nbd.specs.Errors.{ComesBy};
ghost use Rattle.paraid_nbd.specs.Export.{ForEachState, KeepsOn};
ghost use Rattle.paraid_nbd.specs.Requests.{IsRequestMagic, content_length, outcome_of};
ghost use Rattle.paraid_nbd.specs.Performing.{Fills, Performs, TakesContent, said_with};
ghost use Rattle.paraid_nbd.specs.Service.{EndsRequest, Serves, Service, StopsRequest, TakesHead, Transmits};
ghost use Rattle.paraid_nbd.specs.Taking.{Lacks, Takes};
ghost use Rattle.paraid_nbd.specs.Handshake.{IsUnsent};
ghost use Rattle.paraid_base.specs.Told.{GrowsByBytes};

use crate::NbdEnd;
use crate::export::{read_bytes, write_bytes};
use crate::input::Input;
use crate::options::{negotiate, send};
use crate::packet::Packet;
use crate::request::{Command, MAX_LENGTH, Outcome, REPLY, REQUEST, Request, error_number};
use byteorder::{BigEndian, ByteOrder};
use paraid_blocks::Blocks;
use paraid_io::{Sink, Source, write_all};
use std::alloc::Global;

/// The most bytes of a read that are sent together with the head of its reply.
const AT_ONCE: usize = 8192;

/// Serves one client: the source is what it sends, the sink what it gets.
pub fn serve_nbd<B: Blocks, S: Source, K: Sink>(
    alloc: Global,
    blocks: &mut B,
    source: &mut S,
    sink: &mut K,
) -> NbdEnd
    ensures service { Service
        (512 * B.block_count blocks.old) B.stands B.halted B.kept B.tells blocks.old blocks.new
        (S.left source.old) (S.left source.new) (K.written sink.old) (K.written sink.new)
        (S.faults source.old) (S.faults source.new) (K.faults sink.old) (K.faults sink.new) result }
    ensures size { B.block_count blocks.new ≡ B.block_count blocks.old }
    ensures told { IsTrue (B.tells blocks.new) → IsTrue (B.tells blocks.old) }
    ensures keeps { KeepsOn B.kept blocks.old blocks.new }
    ensures later { S.faults source.old ≤ S.faults source.new }
    ensures still { result ≢ NbdEnd.Source → S.faults source.new ≡ S.faults source.old }
    ensures later_sink { K.faults sink.old ≤ K.faults sink.new }
    ensures still_sink { result ≢ NbdEnd.Sink → K.faults sink.new ≡ K.faults sink.old }
{
    let size = 512 * u64::from(blocks.blocks());
    let room = size.min(u64::from(MAX_LENGTH)) as usize;
    let Ok(mut buffer) = vec![in alloc; 0; room] else {
        return NbdEnd::NoMemory;
    };
    let mut input = Input::new();
    if let Err(end) = negotiate(source, sink, &mut input, size) {
        return end;
    }
    transmit(blocks, source, sink, &mut input, size, &mut buffer)
}

// Serves requests until one of them is the last.
fn transmit<B: Blocks, S: Source, K: Sink>(
    blocks: &mut B,
    source: &mut S,
    sink: &mut K,
    input: &mut Input,
    size: u64,
    buffer: &mut [u8],
) -> NbdEnd
    requires size { size ≡ 512 * B.block_count blocks.old }
    requires few { B.block_count blocks.old < 2 ^ 32 }
    requires room { length buffer.old ≡ min size 33554432 }
    ensures transmits { Transmits size B.stands B.halted B.kept B.tells blocks.old blocks.new
        (S.left source.old) (S.left source.new) input.old.taken input.new.taken
        (K.written sink.old) (K.written sink.new)
        (S.faults source.old) (S.faults source.new) (K.faults sink.old) (K.faults sink.new) result }
    ensures size { B.block_count blocks.new ≡ B.block_count blocks.old }
    ensures told { IsTrue (B.tells blocks.new) → IsTrue (B.tells blocks.old) }
    ensures keeps { KeepsOn B.kept blocks.old blocks.new }
    ensures later { S.faults source.old ≤ S.faults source.new }
    ensures still { result ≢ NbdEnd.Source → S.faults source.new ≡ S.faults source.old }
    ensures later_sink { K.faults sink.old ≤ K.faults sink.new }
    ensures still_sink { result ≢ NbdEnd.Sink → K.faults sink.new ≡ K.faults sink.old }
{
    loop {
        if let Err(end) = serve_request(blocks, source, sink, input, size, buffer) {
            return end;
        }
    }
}

// Takes a request, does it and answers it.
fn serve_request<B: Blocks, S: Source, K: Sink>(
    blocks: &mut B,
    source: &mut S,
    sink: &mut K,
    input: &mut Input,
    size: u64,
    buffer: &mut [u8],
) -> Result<(), NbdEnd>
    requires size { size ≡ 512 * B.block_count blocks.old }
    requires few { B.block_count blocks.old < 2 ^ 32 }
    requires room { length buffer.old ≡ min size 33554432 }
    ensures serves { OnOk result (Serves size B.stands B.halted B.kept B.tells blocks.old blocks.new
        (S.left source.old) (S.left source.new) input.old.taken input.new.taken
        (K.written sink.old) (K.written sink.new)) }
    ensures ends { IfErr result (λ e. EndsRequest size B.stands B.halted B.kept B.tells blocks.old
        blocks.new (S.left source.old) (S.left source.new) input.old.taken input.new.taken
        (K.written sink.old) (K.written sink.new)
        (S.faults source.old) (S.faults source.new) (K.faults sink.old) (K.faults sink.new) e) }
    ensures size { B.block_count blocks.new ≡ B.block_count blocks.old }
    ensures told { IsTrue (B.tells blocks.new) → IsTrue (B.tells blocks.old) }
    ensures keeps { KeepsOn B.kept blocks.old blocks.new }
    ensures later { S.faults source.old ≤ S.faults source.new }
    ensures still { result ≢ Err NbdEnd.Source → S.faults source.new ≡ S.faults source.old }
    ensures later_sink { K.faults sink.old ≤ K.faults sink.new }
    ensures still_sink { result ≢ Err NbdEnd.Sink → K.faults sink.new ≡ K.faults sink.old }
{
    let request = take_request(source, input)?;
    let outcome = request.outcome(size);
    let content = take_content(source, input, &request, outcome, size, buffer)?;
    let content = &mut buffer[..content];
    let outcome = perform(blocks, &request, outcome, size, content);
    reply(sink, &request, outcome, content)
}

// Takes the number before a request.
fn take_magic<S: Source>(source: &mut S, input: &mut Input) -> Result<(), NbdEnd>
    ensures takes { OnOk result ((magic : List ℕ) × IsRequestMagic magic
        × Takes (S.left source.old) (S.left source.new) input.old.taken input.new.taken magic) }
    ensures stops { IfErr result (λ e. StopsRequest (S.left source.old) (S.left source.new)
        input.old.taken input.new.taken (S.faults source.old) (S.faults source.new) e) }
    ensures later { S.faults source.old ≤ S.faults source.new }
    ensures still { result ≢ Err NbdEnd.Source → S.faults source.new ≡ S.faults source.old }
{
    let at = input.taken;
    let mut magic = [0; 4];
    input.fill(source, &mut magic)?;
    if BigEndian::read_u32(&magic) != REQUEST {
        return Err(NbdEnd::Protocol { at });
    }
    Ok(())
}

// Takes a request up to the bytes to write.
fn take_request<S: Source>(source: &mut S, input: &mut Input) -> Result<Request, NbdEnd>
    ensures takes { IfOk result (λ r.
        TakesHead (S.left source.old) (S.left source.new) input.old.taken input.new.taken r) }
    ensures stops { IfErr result (λ e. StopsRequest (S.left source.old) (S.left source.new)
        input.old.taken input.new.taken (S.faults source.old) (S.faults source.new) e) }
    ensures later { S.faults source.old ≤ S.faults source.new }
    ensures still { result ≢ Err NbdEnd.Source → S.faults source.new ≡ S.faults source.old }
{
    take_magic(source, input)?;
    let mut head = [0; 24];
    input.fill(source, &mut head)?;
    let request = Request::from_bytes(&head);
    if let Command::Disconnect = request.command {
        return Err(NbdEnd::Done);
    }
    Ok(request)
}

// Takes the bytes to write. It says how much of the buffer the request is about.
fn take_content<S: Source>(
    source: &mut S,
    input: &mut Input,
    request: &Request,
    outcome: Outcome,
    size: u64,
    buffer: &mut [u8],
) -> Result<usize, NbdEnd>
    requires outcome { outcome ≡ outcome_of size request.now }
    requires room { length buffer.old ≡ min size 33554432 }
    ensures takes { IfOk result (λ n. TakesContent (S.left source.old)
        (S.left source.new) input.old.taken input.new.taken request.now outcome n buffer.new) }
    ensures lacks { IfErr result (λ e. Lacks (S.left source.old) (S.left source.new)
        input.old.taken input.new.taken (content_length request.now.command request.now.length)
        (S.faults source.old) (S.faults source.new) e) }
    ensures later { S.faults source.old ≤ S.faults source.new }
    ensures still { result ≢ Err NbdEnd.Source → S.faults source.new ≡ S.faults source.old }
{
    match (request.command, outcome) {
        (Command::Write, _) => take_written(source, input, request, outcome, size, buffer),
        (Command::Read, Outcome::Done) => Ok(request.length as usize),
        _ => Ok(0),
    }
}

// The same of a request to write.
fn take_written<S: Source>(
    source: &mut S,
    input: &mut Input,
    request: &Request,
    outcome: Outcome,
    size: u64,
    buffer: &mut [u8],
) -> Result<usize, NbdEnd>
    requires command { request.now.command ≡ Command.Write }
    requires outcome { outcome ≡ outcome_of size request.now }
    requires room { length buffer.old ≡ min size 33554432 }
    ensures takes { IfOk result (λ n. TakesContent (S.left source.old)
        (S.left source.new) input.old.taken input.new.taken request.now outcome n buffer.new) }
    ensures lacks { IfErr result (λ e. Lacks (S.left source.old) (S.left source.new)
        input.old.taken input.new.taken (content_length request.now.command request.now.length)
        (S.faults source.old) (S.faults source.new) e) }
    ensures later { S.faults source.old ≤ S.faults source.new }
    ensures still { result ≢ Err NbdEnd.Source → S.faults source.new ≡ S.faults source.old }
{
    let Outcome::Done = outcome else {
        input.skip(source, request.length)?;
        return Ok(0);
    };
    let length = request.length as usize;
    input.fill(source, &mut buffer[..length])?;
    Ok(length)
}

// Does what is asked for, unless it cannot be.
fn perform<B: Blocks>(
    blocks: &mut B,
    request: &Request,
    outcome: Outcome,
    size: u64,
    content: &mut [u8],
) -> Outcome
    requires size { size ≡ 512 * B.block_count blocks.old }
    requires few { B.block_count blocks.old < 2 ^ 32 }
    requires outcome { outcome ≡ outcome_of size request.now }
    requires stays { request.now.command ≢ Command.Disconnect }
    requires room { Fills request.now outcome content.old }
    ensures performs { (first : B)
        → ForEachState (B.stands blocks.old) (B.halted blocks.old) (B.kept first blocks.old)
        (B.tells blocks.new) (λ s events. Performs size (B.stands blocks.new) (B.halted blocks.new)
        (B.kept first blocks.new) s events request.now content.old content.new result) }
    ensures comes { KeepsBy B.kept blocks.old blocks.new
        (ComesBy size request.now content.old content.new result) }
    ensures many { request.now.command ≡ Command.Read → result ≡ Outcome.Done
        → length content.new ≡ request.now.length }
    ensures size { B.block_count blocks.new ≡ B.block_count blocks.old }
    ensures told { IsTrue (B.tells blocks.new) → IsTrue (B.tells blocks.old) }
    ensures keeps { KeepsOn B.kept blocks.old blocks.new }
{
    let Outcome::Done = outcome else {
        return outcome;
    };
    match request.command {
        Command::Read => perform_read(blocks, request, content),
        Command::Write => perform_write(blocks, request, content),
        Command::Flush => perform_flush(blocks, request, content),
        Command::Disconnect | Command::Unknown => outcome,
    }
}

// Reads into the content.
fn perform_read<B: Blocks>(blocks: &mut B, request: &Request, content: &mut [u8]) -> Outcome
    requires few { B.block_count blocks.old < 2 ^ 32 }
    requires command { request.now.command ≡ Command.Read }
    requires done { outcome_of (512 * B.block_count blocks.old) request.now ≡ Outcome.Done }
    requires room { length content.old ≡ request.now.length }
    ensures performs { (first : B) → ForEachState (B.stands blocks.old)
        (B.halted blocks.old) (B.kept first blocks.old) (B.tells blocks.new) (λ s events.
        Performs (512 * B.block_count blocks.old) (B.stands blocks.new) (B.halted blocks.new)
        (B.kept first blocks.new) s events request.now content.old content.new result) }
    ensures comes { KeepsBy B.kept blocks.old blocks.new
        (ComesBy (512 * B.block_count blocks.old) request.now content.old content.new result) }
    ensures size { B.block_count blocks.new ≡ B.block_count blocks.old }
    ensures told { IsTrue (B.tells blocks.new) → IsTrue (B.tells blocks.old) }
    ensures keeps { KeepsOn B.kept blocks.old blocks.new }
{
    match read_bytes(blocks, request.offset, content) {
        Ok(()) => Outcome::Done,
        Err(_halt) => Outcome::Halted,
    }
}

// Writes the content.
fn perform_write<B: Blocks>(blocks: &mut B, request: &Request, content: &mut [u8]) -> Outcome
    requires few { B.block_count blocks.old < 2 ^ 32 }
    requires command { request.now.command ≡ Command.Write }
    requires done { outcome_of (512 * B.block_count blocks.old) request.now ≡ Outcome.Done }
    requires room { length content.old ≡ request.now.length }
    ensures performs { (first : B) → ForEachState (B.stands blocks.old)
        (B.halted blocks.old) (B.kept first blocks.old) (B.tells blocks.new) (λ s events.
        Performs (512 * B.block_count blocks.old) (B.stands blocks.new) (B.halted blocks.new)
        (B.kept first blocks.new) s events request.now content.old content.new result) }
    ensures comes { KeepsBy B.kept blocks.old blocks.new
        (ComesBy (512 * B.block_count blocks.old) request.now content.old content.new result) }
    ensures size { B.block_count blocks.new ≡ B.block_count blocks.old }
    ensures told { IsTrue (B.tells blocks.new) → IsTrue (B.tells blocks.old) }
    ensures keeps { KeepsOn B.kept blocks.old blocks.new }
{
    match write_bytes(blocks, request.offset, content) {
        Ok(()) => Outcome::Done,
        Err(_halt) => Outcome::Halted,
    }
}

// Keeps what was written.
fn perform_flush<B: Blocks>(blocks: &mut B, request: &Request, content: &mut [u8]) -> Outcome
    requires few { B.block_count blocks.old < 2 ^ 32 }
    requires command { request.now.command ≡ Command.Flush }
    requires done { outcome_of (512 * B.block_count blocks.old) request.now ≡ Outcome.Done }
    requires room { length content.old ≡ 0 }
    ensures performs { (first : B) → ForEachState (B.stands blocks.old)
        (B.halted blocks.old) (B.kept first blocks.old) (B.tells blocks.new) (λ s events.
        Performs (512 * B.block_count blocks.old) (B.stands blocks.new) (B.halted blocks.new)
        (B.kept first blocks.new) s events request.now content.old content.new result) }
    ensures comes { KeepsBy B.kept blocks.old blocks.new
        (ComesBy (512 * B.block_count blocks.old) request.now content.old content.new result) }
    ensures size { B.block_count blocks.new ≡ B.block_count blocks.old }
    ensures told { IsTrue (B.tells blocks.new) → IsTrue (B.tells blocks.old) }
    ensures keeps { KeepsOn B.kept blocks.old blocks.new }
{
    match blocks.flush() {
        Ok(_writes) => Outcome::Done,
        Err(_halt) => Outcome::Halted,
    }
}

// Answers a request, with what was read.
fn reply<K: Sink>(
    sink: &mut K,
    request: &Request,
    outcome: Outcome,
    content: &[u8],
) -> Result<(), NbdEnd>
    ensures sends { OnOk result (GrowsByBytes
        (K.written sink.old) (K.written sink.new) (said_with request.now outcome content.now)) }
    ensures unsent { IfErr result (λ e. IsUnsent (K.written sink.old) (K.written sink.new)
        (said_with request.now outcome content.now) (K.faults sink.old) (K.faults sink.new) e) }
    ensures later_sink { K.faults sink.old ≤ K.faults sink.new }
    ensures still_sink { result ≢ Err NbdEnd.Sink → K.faults sink.new ≡ K.faults sink.old }
{
    let mut packet = Packet::new();
    packet.put_u32(REPLY);
    packet.put_u32(error_number(outcome));
    packet.put_u64(request.cookie);
    match (request.command, outcome) {
        (Command::Read, Outcome::Done) => send_read(sink, packet, content),
        _ => send(sink, &packet),
    }
}

// Sends the head of a reply and what was read: at once, unless that is long.
fn send_read<K: Sink>(sink: &mut K, mut packet: Packet, content: &[u8]) -> Result<(), NbdEnd>
    requires head { length packet ≡ 16 }
    ensures sends { OnOk result
        (GrowsByBytes (K.written sink.old) (K.written sink.new) (packet ++ content.now)) }
    ensures unsent { IfErr result (λ e. IsUnsent (K.written sink.old)
        (K.written sink.new) (packet ++ content.now) (K.faults sink.old) (K.faults sink.new) e) }
    ensures later_sink { K.faults sink.old ≤ K.faults sink.new }
    ensures still_sink { result ≢ Err NbdEnd.Sink → K.faults sink.new ≡ K.faults sink.old }
{
    if content.len() <= AT_ONCE {
        packet.put_bytes(content);
        return send(sink, &packet);
    }
    send(sink, &packet)?;
    send_bytes(sink, content)
}

// Sends bytes of the device.
fn send_bytes<K: Sink>(sink: &mut K, bytes: &[u8]) -> Result<(), NbdEnd>
    ensures sends { OnOk result (GrowsByBytes (K.written sink.old) (K.written sink.new) bytes.now) }
    ensures unsent { IfErr result (λ e. IsUnsent (K.written sink.old) (K.written sink.new) bytes.now
        (K.faults sink.old) (K.faults sink.new) e) }
    ensures later_sink { K.faults sink.old ≤ K.faults sink.new }
    ensures still_sink { result ≢ Err NbdEnd.Sink → K.faults sink.new ≡ K.faults sink.old }
{
    match write_all(sink, bytes) {
        Ok(()) => Ok(()),
        Err(_failed) => Err(NbdEnd::Sink),
    }
}
