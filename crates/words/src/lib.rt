// Bytes, words and numbers written over an output from a place on. What does not fit is not stored, so that past the end of an output only the place goes on.
#![tactic(auto)]

ghost use Rattle.std.specs.Prelude.{[], ◌∷◌, ◌++◌};
ghost use Rattle.dqbf.specs.Text.{space};
ghost use Rattle.dqbf.specs.Line.{digits_of};
ghost use Rattle.dqbf.specs.Spelling.{literal_word};
ghost use Rattle.words.specs.Laid.{Fits, Wrote};
ghost use Rattle.words.specs.Output.{SameOutput};
ghost use Rattle.words.specs.Listed.{listed};

use dqbf::literal;
use lines::digits;

// An output, and the place where it is written next.
#[derive(Drop)]
pub struct Writer<'a> {
    pub out: &'a mut [u8],
    pub at: usize,
}

impl Writer<'_> {
    // One byte.
    pub fn byte(&mut self, byte: u8)
        requires { Fits self.old.at (byte ∷ []) }
        ensures loan { SameOutput self.old self.new }
        ensures wrote { Wrote (byte ∷ []) self.old.at self.old.out.now self.new.out.now self.new.at }
    {
        if self.at < self.out.len() {
            self.out[self.at] = byte;
        }
        self.at += 1;
    }

    // The bytes of a word.
    pub fn word(&mut self, word: &[u8])
        requires { Fits self.old.at word.now }
        ensures loan { SameOutput self.old self.new }
        ensures wrote { Wrote word.now self.old.at self.old.out.now self.new.out.now self.new.at }
    {
        if self.out.len() <= self.at {
            self.at += word.len();
            return;
        }
        for &byte in word {
            self.byte(byte);
        }
    }

    // A number in decimal digits.
    pub fn number(&mut self, n: u32)
        requires { Fits self.old.at (digits_of n) }
        ensures loan { SameOutput self.old self.new }
        ensures wrote { Wrote (digits_of n) self.old.at self.old.out.now self.new.out.now self.new.at }
    {
        if self.out.len() <= self.at {
            self.at += digits::digit_count(n);
            return;
        }
        let mut word = [0u8; 10];
        let count = digits::write_digits(&mut word, n);
        self.word(&word[..count]);
    }

    // A number, and the space behind it.
    pub fn spaced(&mut self, n: u32)
        requires { Fits self.old.at (digits_of n ++ (space ∷ [])) }
        ensures loan { SameOutput self.old self.new }
        ensures wrote { Wrote (digits_of n ++ (space ∷ [])) self.old.at self.old.out.now self.new.out.now self.new.at }
    {
        self.number(n);
        self.byte(b' ');
    }

    // A literal, and the space behind it.
    pub fn literal(&mut self, literal: i16)
        requires { Fits self.old.at (literal_word literal ++ (space ∷ [])) }
        ensures loan { SameOutput self.old self.new }
        ensures wrote { Wrote (literal_word literal ++ (space ∷ [])) self.old.at self.old.out.now self.new.out.now self.new.at }
    {
        let variable = literal::variable_of(literal) as u32;
        if literal < 0 {
            self.byte(b'-');
            self.spaced(variable);
            return;
        }
        self.spaced(variable);
    }

    // The closing 0 and the line feed.
    pub fn closing(&mut self)
        requires { Fits self.old.at (listed []) }
        ensures loan { SameOutput self.old self.new }
        ensures wrote { Wrote (listed []) self.old.at self.old.out.now self.new.out.now self.new.at }
    {
        self.word(b"0\n");
    }
}
