//! The label of an image: a text of one form, which says what image it is and how new.
ghost use Rattle.std.specs.Prelude.{◌≤◌, ◌+◌, ◌*◌, length};

use paraid_base::DiskNo;

/// The length of a label, in bytes.
pub const LABEL_SIZE: usize = 384;

/// A label in which each number is 0. No number moves another one.
static FORM: [u8; LABEL_SIZE] =
    *b"paraid label 1, kept by paraid after the blocks\narray 00000000000000000000000000000000\ndisk 0 of 0\ngeneration 00000000000000000000\nknown 0 00000000000000000000\nknown 1 00000000000000000000\nknown 2 00000000000000000000\nknown 3 00000000000000000000\nknown 4 00000000000000000000\nknown 5 00000000000000000000\nknown 6 00000000000000000000\nknown 7 00000000000000000000\nsum 0000000000000000\n";

// Where the numbers stand in it.
const ARRAY_AT: usize = 54;

const DISK_AT: usize = 92;

const DISKS_AT: usize = 97;

const GENERATION_AT: usize = 110;

const KNOWN_AT: usize = 139;

const KNOWN_STEP: usize = 29;

const SUM_AT: usize = 367;

/// How many bytes the sum is of.
const SUMMED: usize = 363;

/// What the label of an image says.
#[derive(Clone, Copy, PartialEq, Eq)]
pub struct Label {
    /// The number of the array, drawn when it was made.
    pub array: [u8; 16],
    /// The slot of the disk.
    pub disk: DiskNo,
    /// How many disks the array has.
    pub disks: u8,
    /// At which load, or which attaching of a disk since, the image was last seen to spin. Each has
    /// a greater number than the last.
    pub generation: u64,
    /// The generation of each disk's image, as far as this one knows.
    pub known: [u64; 8],
}

impl Label {
    /// The text of the label.
    pub fn text(&self) -> [u8; LABEL_SIZE] {
        let mut text = FORM;
        put_bytes(&mut text, ARRAY_AT, &self.array);
        text[DISK_AT] = b'0' + self.disk % 10;
        text[DISKS_AT] = b'0' + self.disks % 10;
        put_number(&mut text, GENERATION_AT, self.generation);
        for disk in 0..8 {
            put_number(&mut text, KNOWN_AT + KNOWN_STEP * disk, self.known[disk]);
        }
        let sum = sum(&text).to_be_bytes();
        put_bytes(&mut text, SUM_AT, &sum);
        text
    }

    /// The label that a text is of, if it is one: each label has one text.
    pub fn read(text: &[u8; LABEL_SIZE]) -> Option<Label> {
        let label = Label::fields(text);
        if label.text() == *text {
            Some(label)
        } else {
            None
        }
    }

    // What stands in the places of the numbers.
    fn fields(text: &[u8; LABEL_SIZE]) -> Label {
        let mut known = [0; 8];
        for disk in 0..8 {
            known[disk] = number_at(text, KNOWN_AT + KNOWN_STEP * disk);
        }
        Label {
            array: array_at(text),
            disk: digit(text[DISK_AT]),
            disks: digit(text[DISKS_AT]),
            generation: number_at(text, GENERATION_AT),
            known,
        }
    }
}

/// Whether a text was a label once: it has the first words of one, or two others in their places.
pub fn was_label(text: &[u8; LABEL_SIZE]) -> bool {
    text[..15] == FORM[..15] || (text[48..54] == FORM[48..54] && text[362..367] == FORM[362..367])
}

/// Whether a text has the number of an array where a label has it.
pub fn names_array(text: &[u8; LABEL_SIZE], array: &[u8; 16]) -> bool {
    array_at(text) == *array
}

const DIGITS: [u8; 16] = *b"0123456789abcdef";

// Two digits to the base 16 for each byte.
fn put_bytes(text: &mut [u8; LABEL_SIZE], at: usize, bytes: &[u8])
    requires { at + 2 * length bytes.now ≤ 384 }
{
    for k in 0..bytes.len() {
        put_hex(text, at + 2 * k, bytes[k]);
    }
}

// Two digits to the base 16.
fn put_hex(text: &mut [u8; LABEL_SIZE], at: usize, byte: u8)
    requires { at + 2 ≤ 384 }
{
    text[at] = DIGITS[(byte / 16) as usize];
    text[at + 1] = DIGITS[(byte % 16) as usize];
}

// Twenty decimal digits, in the place of twenty zeros.
fn put_number(text: &mut [u8; LABEL_SIZE], at: usize, number: u64)
    requires { at + 20 ≤ 384 }
{
    let mut rest = number;
    for k in 0..20 {
        if rest == 0 {
            return;
        }
        text[at + 19 - k] = b'0' + (rest % 10) as u8;
        rest /= 10;
    }
}

// The value of a digit; of another byte, any.
fn digit(byte: u8) -> u8 {
    if byte >= b'a' {
        (byte - b'a').wrapping_add(10)
    } else {
        byte.wrapping_sub(b'0')
    }
}

// The number of the array.
fn array_at(text: &[u8; LABEL_SIZE]) -> [u8; 16] {
    let mut array = [0; 16];
    for at in 0..16 {
        array[at] = hex_at(text, ARRAY_AT + 2 * at);
    }
    array
}

fn hex_at(text: &[u8; LABEL_SIZE], at: usize) -> u8
    requires { at + 2 ≤ 384 }
{
    digit(text[at])
        .wrapping_mul(16)
        .wrapping_add(digit(text[at + 1]))
}

fn number_at(text: &[u8; LABEL_SIZE], at: usize) -> u64
    requires { at + 20 ≤ 384 }
{
    let mut number: u64 = 0;
    for k in 0..20 {
        number = number
            .wrapping_mul(10)
            .wrapping_add(digit(text[at + k]) as u64);
    }
    number
}

// The sum by FNV-1a, which a text that was cut short or overwritten in part does not have.
fn sum(text: &[u8; LABEL_SIZE]) -> u64 {
    let mut sum: u64 = 0xcbf2_9ce4_8422_2325;
    for at in 0..SUMMED {
        sum = (sum ^ text[at] as u64).wrapping_mul(0x0000_0100_0000_01b3);
    }
    sum
}
