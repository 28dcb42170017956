// The fields of an entry's bytes: bytes, numbers with the highest byte first, and texts.
ghost use Rattle.std.specs.Prelude.{◌≡◌, ◌<◌, ◌^◌, ◌==◌, [], ◌∷◌, ℕ, List, length};
ghost use Rattle.px_event.specs.Appending.{Appends};
ghost use Rattle.byteorder.specs.Endian.{big_bytes};
ghost use Rattle.px_event.specs.Bytes.{text_bytes};
ghost use Rattle.px_event.specs.Reading.{Reads, byte_at, number_at, front_at, text_at};

use crate::fault::DecodeFault;
use byteorder::{BigEndian, ByteOrder};
use px_value::NoMemory;
use std::marker::Model;

/// Appends a byte.
pub fn push_byte(out: &mut Vec<u8>, byte: u8) -> Result<(), NoMemory>
    ensures { Appends (byte ∷ []) out.old out.new result }
{
    out.push(byte)?;
    Ok(())
}

/// Appends four bytes.
pub fn push_u32(out: &mut Vec<u8>, number: u32) -> Result<(), NoMemory>
    ensures { Appends (big_bytes 4 number) out.old out.new result }
{
    let mut bytes = [0; 4];
    BigEndian::write_u32(&mut bytes, number);
    out.extend_from_slice(&bytes)
}

fn push_u16(out: &mut Vec<u8>, number: u16) -> Result<(), NoMemory>
    ensures { Appends (big_bytes 2 number) out.old out.new result }
{
    let mut bytes = [0; 2];
    BigEndian::write_u16(&mut bytes, number);
    out.extend_from_slice(&bytes)
}

/// Appends a text: its length in two bytes, and its bytes.
pub fn push_text(out: &mut Vec<u8>, text: &str) -> Result<(), NoMemory>
    requires { length text.now < 2 ^ 16 }
    ensures { Appends (text_bytes text.now) out.old out.new result }
{
    push_u16(out, text.len() as u16)?;
    out.extend_from_slice(text.as_bytes())
}

/// Appends the byte of a kind, and a text.
pub fn push_tagged(out: &mut Vec<u8>, tag: u8, text: &str) -> Result<(), NoMemory>
    requires { length text.now < 2 ^ 16 }
    ensures { Appends (tag ∷ text_bytes text.now) out.old out.new result }
{
    out.push(tag)?;
    push_text(out, text)
}

/// Bytes that are read from the front.
#[derive(Drop)]
pub struct Reader<'a> {
    rest: &'a [u8],
}

impl<'a> Model for Reader<'a> {
    ghost use Rattle.std.specs.Prelude.{ℕ, List};

    ghost Value = { List ℕ };

    ghost view = { λ r. r.rest.now };
}

impl<'a> Reader<'a> {
    /// A reader of these bytes.
    pub fn new(bytes: &'a [u8]) -> Self
        ensures { result ≡ bytes.now }
    {
        Reader { rest: bytes }
    }

    /// Whether no byte is left.
    pub fn is_at_end(&self) -> bool
        ensures { result ≡ (length self.now == 0) }
    {
        self.rest.is_empty()
    }

    /// The next byte.
    pub fn byte(&mut self) -> Result<u8, DecodeFault>
        ensures { Reads (λ byte. byte) (byte_at self.old) result self.new }
    {
        match self.rest {
            [] => Err(DecodeFault::Bad),
            [byte, rest @ ..] => {
                self.rest = rest;
                Ok(*byte)
            }
        }
    }

    /// The number in the next four bytes.
    pub fn u32(&mut self) -> Result<u32, DecodeFault>
        ensures { Reads (λ number. number) (number_at 4 self.old) result self.new }
    {
        if self.rest.len() < 4 {
            return Err(DecodeFault::Bad);
        }
        let number = BigEndian::read_u32(self.rest);
        self.rest = &self.rest[4..];
        Ok(number)
    }

    /// The text of which the next two bytes are the length.
    #[tactic(auto, unfolding(crate::specs::Reading::text_at))]
    pub fn text(&mut self) -> Result<&'a str, DecodeFault>
        ensures { Reads (λ text. text.now) (text_at self.old) result self.new }
    {
        let size = self.u16()?;
        let text = self.front(usize::from(size))?;
        match str::from_utf8(text) {
            Ok(text) => Ok(text),
            Err(_) => Err(DecodeFault::Bad),
        }
    }

    fn u16(&mut self) -> Result<u16, DecodeFault>
        ensures { Reads (λ number. number) (number_at 2 self.old) result self.new }
    {
        if self.rest.len() < 2 {
            return Err(DecodeFault::Bad);
        }
        let number = BigEndian::read_u16(self.rest);
        self.rest = &self.rest[2..];
        Ok(number)
    }

    /// The next `count` bytes.
    fn front(&mut self, count: usize) -> Result<&'a [u8], DecodeFault>
        ensures { Reads (λ front. front.now) (front_at count self.old) result self.new }
    {
        if self.rest.len() < count {
            return Err(DecodeFault::Bad);
        }
        let (front, rest) = self.rest.split_at(count);
        self.rest = rest;
        Ok(front)
    }
}
