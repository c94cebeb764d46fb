//! A text of limited length.
ghost use Rattle.std.specs.Prelude.{◌≡◌, ◌≤◌, ◌+◌, [], ◌++◌, length};
ghost use Rattle.text_line.specs.Shown.{shown_name, name_room, shown_place, place_room};

use arrayvec::ArrayVec;
use block_index::Place;
use cello_num::Name;
use itoa::{Buffer, Integer};
use std::marker::Model;

/// The most bytes of a line.
pub const LINE_ROOM: usize = 160;

/// Room for any one line of a report or of a fault.
pub type Line = Text<LINE_ROOM>;

/// A text of at most `ROOM` bytes. Contracts see it as the list of its bytes.
#[derive(Drop)]
pub struct Text<const ROOM: usize> {
    bytes: ArrayVec<u8, ROOM>,
}

impl<const ROOM: usize> Model for Text<ROOM> {
    ghost use Rattle.std.specs.Prelude.{ℕ, List};

    ghost Value = { List ℕ };

    ghost view = { λ t. t.bytes.items };
}

impl<const ROOM: usize> Text<ROOM> {
    /// No text yet.
    pub fn new() -> Self
        ensures empty { result ≡ [] }
    {
        Text {
            bytes: ArrayVec::new(),
        }
    }

    /// These bytes.
    pub fn of(bytes: &[u8]) -> Self
        requires room { length bytes.now ≤ ROOM }
        ensures bytes { result ≡ bytes.now }
    {
        let mut text = Text::new();
        text.push(bytes);
        text
    }

    /// The bytes so far.
    pub fn bytes(&self) -> &[u8]
        ensures bytes { result.now ≡ self.now }
        ensures within { length self.now ≤ ROOM }
    {
        self.bytes.as_slice()
    }

    /// The text is empty again.
    pub fn clear(&mut self)
        ensures empty { self.new ≡ [] }
    {
        self.bytes.clear();
    }

    /// More bytes, as they are.
    pub fn push(&mut self, more: &[u8])
        requires room { length self.old + length more.now ≤ ROOM }
        ensures bytes { self.new ≡ self.old ++ more.now }
        ensures len { length self.new ≡ length self.old + length more.now }
    {
        self.bytes.try_extend_from_slice(more).unwrap();
    }

    /// A number in decimal digits, after a `-` where it is below 0.
    pub fn push_number<I: Integer>(&mut self, number: I)
        requires room { length self.old + I.MAX_STR_LEN ≤ ROOM }
        ensures bytes { self.new ≡ self.old ++ I.text number }
        ensures len { length self.new ≤ length self.old + I.MAX_STR_LEN }
    {
        let mut buffer = Buffer::new();
        self.push(buffer.format(number).as_bytes());
    }

    /// A name, or `-` where it is empty.
    pub fn push_name(&mut self, name: &Name)
        requires room { length self.old + name_room ≤ ROOM }
        ensures bytes { self.new ≡ self.old ++ shown_name name.now }
        ensures len { length self.new ≤ length self.old + name_room }
    {
        let bytes = name.bytes();
        if bytes.is_empty() {
            self.push(b"-");
        } else {
            self.push(bytes);
        }
    }

    /// A place: its level and its three coordinates.
    pub fn push_place(&mut self, place: Place)
        requires room { length self.old + place_room ≤ ROOM }
        ensures bytes { self.new ≡ self.old ++ shown_place place }
        ensures len { length self.new ≤ length self.old + place_room }
    {
        self.push_number(place.level());
        self.push(b" ");
        self.push_number(place.x());
        self.push(b" ");
        self.push_number(place.y());
        self.push(b" ");
        self.push_number(place.z());
    }
}
