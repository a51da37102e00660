//! The options that a client asks for before it reads and writes.
ghost use Rattle.std.specs.Prelude.{◌≡◌, ◌≢◌, ◌↔◌, ◌+◌, ◌≤◌, ◌++◌, ℕ, List, length, IfOk, IfErr, OnOk, IsTrue, [], if◌then◌else◌, replicate};
ghost use Rattle.paraid_base.specs.Told.{GrowsByBytes};
ghost use Rattle.paraid_nbd.specs.Handshake.{greeting, IsUnsent, TakesFlags, StopsFlags, TakesOption, StopsOption, TakesChoice, StopsChoice, AnswersOption, EndsOption, BeginsTransmission, EndsEarly};
ghost use Rattle.paraid_nbd.specs.Numbers.{number_bytes};
ghost use Rattle.paraid_nbd.specs.Options.{IsChoice, IsOptionMagic, ack, chooses, kind_reply, option_kind, option_length, option_number, reply_to};
ghost use Rattle.paraid_nbd.specs.Taking.{Takes, Lacks};

use crate::NbdEnd;
use crate::input::Input;
use crate::packet::Packet;
use byteorder::{BigEndian, ByteOrder};
use paraid_io::{Sink, Source, write_all};

/// The number before an option.
const HAVE_OPTION: u64 = 0x4948_4156_454F_5054;

/// The number before the reply to an option.
const OPTION_REPLY: u64 = 0x0003_E889_0455_65A9;

/// The version of the protocol's opening, fixed newstyle, and that no zeros need follow.
const HANDSHAKE_FLAGS: u16 = 3;

/// What the device can do: it has flags, and it can flush.
const EXPORT_FLAGS: u16 = 5;

const ACK: u32 = 1;

const SERVER: u32 = 2;

const INFO: u32 = 3;

const UNSUPPORTED: u32 = 0x8000_0001;

/// The longest content of a request for information.
const MAX_CHOICE: usize = 8192;

/// What an option asks for.
#[derive(Clone, Copy)]
pub enum OptionKind {
    /// Serve this export, in the old way.
    Export,
    /// Leave.
    Abort,
    /// Name the exports.
    Names,
    /// Tell of this export.
    Info,
    /// Tell of this export and serve it.
    Go,
    /// What this service does not know.
    Unknown,
}

fn kind_of(number: u32) -> OptionKind
    ensures { result ≡ option_kind number }
{
    match number {
        1 => OptionKind::Export,
        2 => OptionKind::Abort,
        3 => OptionKind::Names,
        6 => OptionKind::Info,
        7 => OptionKind::Go,
        _ => OptionKind::Unknown,
    }
}

/// Sends a packet.
pub(crate) fn send<K: Sink>(sink: &mut K, packet: &Packet) -> Result<(), NbdEnd>
    ensures sends { OnOk result
        (GrowsByBytes (K.written sink.old) (K.written sink.new) packet.now) }
    ensures unsent { IfErr result (λ e. IsUnsent (K.written sink.old)
        (K.written sink.new) packet.now (K.faults sink.old) (K.faults sink.new) e) }
    ensures later_sink { K.faults sink.old ≤ K.faults sink.new }
    ensures still_sink { result ≢ Err NbdEnd.Sink → K.faults sink.new ≡ K.faults sink.old }
{
    match write_all(sink, packet.as_slice()) {
        Ok(()) => Ok(()),
        Err(_failed) => Err(NbdEnd::Sink),
    }
}

/// Greets the client and answers its options until one of them begins the transmission.
pub(crate) fn negotiate<S: Source, K: Sink>(
    source: &mut S,
    sink: &mut K,
    input: &mut Input,
    size: u64,
) -> Result<(), NbdEnd>
    ensures begins { OnOk result (BeginsTransmission size (S.left source.old) (S.left source.new)
        input.old.taken input.new.taken (K.written sink.old) (K.written sink.new)) }
    ensures ends { IfErr result (λ e. EndsEarly size (S.left source.old) (S.left source.new)
        input.old.taken input.new.taken (K.written sink.old) (K.written sink.new)
        (S.faults source.old) (S.faults source.new) (K.faults sink.old) (K.faults sink.new) e) }
    ensures later { S.faults source.old ≤ S.faults source.new }
    ensures still { result ≢ Err NbdEnd.Source → S.faults source.new ≡ S.faults source.old }
    ensures later_sink { K.faults sink.old ≤ K.faults sink.new }
    ensures still_sink { result ≢ Err NbdEnd.Sink → K.faults sink.new ≡ K.faults sink.old }
{
    greet(sink)?;
    let no_zeros = take_flags(source, input)?;
    loop {
        if option(source, sink, input, size, no_zeros)? {
            return Ok(());
        }
    }
}

#[tactic(auto, unfolding(crate::specs::Handshake::greeting))]
fn greet<K: Sink>(sink: &mut K) -> Result<(), NbdEnd>
    ensures greets { OnOk result (GrowsByBytes (K.written sink.old) (K.written sink.new) greeting) }
    ensures unsent { IfErr result (λ e. IsUnsent (K.written sink.old) (K.written sink.new) greeting
        (K.faults sink.old) (K.faults sink.new) e) }
    ensures later_sink { K.faults sink.old ≤ K.faults sink.new }
    ensures still_sink { result ≢ Err NbdEnd.Sink → K.faults sink.new ≡ K.faults sink.old }
{
    let mut packet = Packet::new();
    packet.put_bytes(b"NBDMAGIC");
    packet.put_u64(HAVE_OPTION);
    packet.put_u16(HANDSHAKE_FLAGS);
    send(sink, &packet)
}

// Takes the client's flags, and says whether it wants no zeros.
fn take_flags<S: Source>(source: &mut S, input: &mut Input) -> Result<bool, NbdEnd>
    ensures flags { IfOk result (λ no_zeros. TakesFlags (S.left source.old) (S.left source.new)
        input.old.taken input.new.taken no_zeros) }
    ensures stops { IfErr result (λ e. StopsFlags (S.left source.old) (S.left source.new)
        input.old.taken input.new.taken
        (S.faults source.old) (S.faults source.new) e) }
    ensures later { S.faults source.old ≤ S.faults source.new }
    ensures still { result ≢ Err NbdEnd.Source → S.faults source.new ≡ S.faults source.old }
{
    let at = input.taken;
    let mut bytes = [0; 4];
    input.fill(source, &mut bytes)?;
    let flags = BigEndian::read_u32(&bytes);
    if flags > 3 {
        return Err(NbdEnd::Protocol { at });
    }
    Ok(flags >= 2)
}

// Takes an option and answers it, and says whether the transmission begins.
fn option<S: Source, K: Sink>(
    source: &mut S,
    sink: &mut K,
    input: &mut Input,
    size: u64,
    no_zeros: bool,
) -> Result<bool, NbdEnd>
    ensures answers { IfOk result (λ begun.
        AnswersOption size no_zeros (S.left source.old) (S.left source.new)
        input.old.taken input.new.taken (K.written sink.old) (K.written sink.new) begun) }
    ensures ends { IfErr result (λ e. EndsOption size no_zeros (S.left source.old) (S.left
        source.new) input.old.taken input.new.taken (K.written sink.old) (K.written sink.new)
        (S.faults source.old) (S.faults source.new) (K.faults sink.old) (K.faults sink.new) e) }
    ensures later { S.faults source.old ≤ S.faults source.new }
    ensures still { result ≢ Err NbdEnd.Source → S.faults source.new ≡ S.faults source.old }
    ensures later_sink { K.faults sink.old ≤ K.faults sink.new }
    ensures still_sink { result ≢ Err NbdEnd.Sink → K.faults sink.new ≡ K.faults sink.old }
{
    let number = take_option(source, input)?;
    let kind = kind_of(number);
    let mut packet = Packet::new();
    put_option_reply(&mut packet, number, kind, size, no_zeros);
    send(sink, &packet)?;
    match kind {
        OptionKind::Export | OptionKind::Go => Ok(true),
        OptionKind::Abort => Err(NbdEnd::Aborted),
        OptionKind::Names | OptionKind::Info | OptionKind::Unknown => Ok(false),
    }
}

// Takes the number before an option.
#[tactic(auto, unfolding(crate::specs::Numbers::number))]
fn take_magic<S: Source>(source: &mut S, input: &mut Input) -> Result<(), NbdEnd>
    ensures takes { OnOk result ((magic : List ℕ) × IsOptionMagic magic
        × Takes (S.left source.old) (S.left source.new) input.old.taken input.new.taken magic) }
    ensures stops { IfErr result (λ e. StopsOption (S.left source.old) (S.left source.new)
        input.old.taken input.new.taken
        (S.faults source.old) (S.faults source.new) e) }
    ensures later { S.faults source.old ≤ S.faults source.new }
    ensures still { result ≢ Err NbdEnd.Source → S.faults source.new ≡ S.faults source.old }
{
    let at = input.taken;
    let mut magic = [0; 8];
    input.fill(source, &mut magic)?;
    if BigEndian::read_u64(&magic) != HAVE_OPTION {
        return Err(NbdEnd::Protocol { at });
    }
    Ok(())
}

// Takes the number of an option and the length of its content.
#[tactic(auto, unfolding(crate::specs::Numbers::number))]
fn take_head<S: Source>(source: &mut S, input: &mut Input) -> Result<(u32, u32), NbdEnd>
    ensures takes { IfOk result (λ r. (head : List ℕ) × (length head ≡ 8)
        × (option_number head ≡ r.0) × (r.1 ≡ option_length head)
        × Takes (S.left source.old) (S.left source.new) input.old.taken input.new.taken head) }
    ensures lacks { IfErr result (λ e. Lacks (S.left source.old) (S.left source.new)
        input.old.taken input.new.taken 8 (S.faults source.old) (S.faults source.new) e) }
    ensures later { S.faults source.old ≤ S.faults source.new }
    ensures still { result ≢ Err NbdEnd.Source → S.faults source.new ≡ S.faults source.old }
{
    let mut head = [0; 8];
    input.fill(source, &mut head)?;
    let number = BigEndian::read_u32(&head);
    let length = BigEndian::read_u32(&head[4..]);
    Ok((number, length))
}

// Takes an option, and gives its number.
fn take_option<S: Source>(source: &mut S, input: &mut Input) -> Result<u32, NbdEnd>
    ensures takes { IfOk result (λ n. TakesOption (S.left source.old) (S.left source.new)
        input.old.taken input.new.taken n) }
    ensures stops { IfErr result (λ e. StopsOption (S.left source.old) (S.left source.new)
        input.old.taken input.new.taken
        (S.faults source.old) (S.faults source.new) e) }
    ensures later { S.faults source.old ≤ S.faults source.new }
    ensures still { result ≢ Err NbdEnd.Source → S.faults source.new ≡ S.faults source.old }
{
    take_magic(source, input)?;
    let at = input.taken + 4;
    let (number, length) = take_head(source, input)?;
    if is_choosing(number) {
        take_choice(source, input, length, at)?;
        return Ok(number);
    }
    input.skip(source, length)?;
    Ok(number)
}

// Whether the option of this number names an export and asks for information.
fn is_choosing(number: u32) -> bool
    ensures { result ≡ chooses (option_kind number) }
{
    matches!(kind_of(number), OptionKind::Info | OptionKind::Go)
}

// Takes the content of an option that names an export. Its length stands at this place.
fn take_choice<S: Source>(
    source: &mut S,
    input: &mut Input,
    count: u32,
    at: u64,
) -> Result<(), NbdEnd>
    ensures takes { OnOk result (TakesChoice (S.left source.old) (S.left source.new)
        input.old.taken input.new.taken count) }
    ensures stops { IfErr result (λ e. StopsChoice (S.left source.old) (S.left source.new)
        input.old.taken input.new.taken count at
        (S.faults source.old) (S.faults source.new) e) }
    ensures later { S.faults source.old ≤ S.faults source.new }
    ensures still { result ≢ Err NbdEnd.Source → S.faults source.new ≡ S.faults source.old }
{
    let length = count as usize;
    if length < 6 || length > MAX_CHOICE {
        return Err(NbdEnd::Protocol { at });
    }
    let mut content = [0; MAX_CHOICE];
    let content = &mut content[..length];
    input.fill(source, content)?;
    if !is_choice(content) {
        return Err(NbdEnd::Protocol { at });
    }
    Ok(())
}

// Whether this is a name's length, the name, a count and so many numbers of two bytes.
#[tactic(auto, unfolding(crate::specs::Numbers::number))]
fn is_choice(content: &[u8]) -> bool
    requires { 6 ≤ length content.now }
    ensures { IsTrue result ↔ IsChoice content.now }
{
    let name = BigEndian::read_u32(content) as usize;
    if name > content.len() - 6 {
        return false;
    }
    let count = BigEndian::read_u16(&content[4 + name..]) as usize;
    content.len() == 6 + name + 2 * count
}

fn put_option_reply(packet: &mut Packet, number: u32, kind: OptionKind, size: u64, no_zeros: bool)
    requires { length packet.old + 134 ≤ 160 }
    ensures value { packet.new ≡ packet.old ++ kind_reply size no_zeros kind number }
    ensures length { length packet.new ≤ length packet.old + 134 }
{
    match kind {
        OptionKind::Export => put_export(packet, size, no_zeros),
        OptionKind::Abort => put_reply(packet, number, ACK, 0),
        OptionKind::Names => put_names(packet, number),
        OptionKind::Info | OptionKind::Go => put_info(packet, number, size),
        OptionKind::Unknown => put_reply(packet, number, UNSUPPORTED, 0),
    }
}

// The head of a reply to an option, with the length of the content that follows.
fn put_reply(packet: &mut Packet, number: u32, kind: u32, size: u32)
    requires { length packet.old + 20 ≤ 160 }
    ensures value { packet.new ≡ packet.old ++ reply_to number kind size }
    ensures length { length packet.new ≡ length packet.old + 20 }
{
    packet.put_u64(OPTION_REPLY);
    packet.put_u32(number);
    packet.put_u32(kind);
    packet.put_u32(size);
}

fn put_names(packet: &mut Packet, number: u32)
    requires { length packet.old + 44 ≤ 160 }
    ensures value { packet.new
        ≡ packet.old ++ (reply_to number 2 4 ++ (number_bytes 4 0 ++ ack number)) }
    ensures length { length packet.new ≡ length packet.old + 44 }
{
    put_reply(packet, number, SERVER, 4);
    packet.put_u32(0);
    put_reply(packet, number, ACK, 0);
}

fn put_info(packet: &mut Packet, number: u32, size: u64)
    requires { length packet.old + 52 ≤ 160 }
    ensures value { packet.new ≡ packet.old ++ (reply_to number 3 12
        ++ (number_bytes 2 0 ++ (number_bytes 8 size ++ (number_bytes 2 5 ++ ack number)))) }
    ensures length { length packet.new ≡ length packet.old + 52 }
{
    put_reply(packet, number, INFO, 12);
    packet.put_u16(0);
    packet.put_u64(size);
    packet.put_u16(EXPORT_FLAGS);
    put_reply(packet, number, ACK, 0);
}

fn put_export(packet: &mut Packet, size: u64, no_zeros: bool)
    requires { length packet.old + 134 ≤ 160 }
    ensures value { packet.new ≡ packet.old ++ (number_bytes 8 size
        ++ (number_bytes 2 5 ++ (if no_zeros then [] else replicate 124 0))) }
    ensures length { length packet.new ≤ length packet.old + 134 }
{
    packet.put_u64(size);
    packet.put_u16(EXPORT_FLAGS);
    if !no_zeros {
        packet.put_bytes(&[0; 124]);
    }
}
