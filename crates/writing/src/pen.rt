//! A pen: characters, one after another.
ghost use Rattle.std.specs.Prelude.{◌≡◌, ◌≤◌, ◌∷◌, [], length};
ghost use Rattle.writing.specs.Writes.{Pushes, Writes};

use crate::put::Full;
use std::marker::Model;

/// What has been written, in memory for N characters.
#[derive(Drop)]
pub struct Pen<const N: usize> {
    bytes: [u8; N],
    count: usize,
}

impl<const N: usize> Model for Pen<N> {
    ghost use Rattle.std.specs.Prelude.{ℕ, ◌≤◌, List, take};

    ghost Value = { List ℕ };

    ghost view = { λ p. take p.count p.bytes };

    ghost invariant = { λ p. p.count ≤ N };
}

impl<const N: usize> Pen<N> {
    /// Nothing is written yet.
    pub fn new() -> Pen<N>
        ensures { result ≡ [] }
    {
        Pen {
            bytes: [0; N],
            count: 0,
        }
    }

    /// What is written.
    pub fn text(&self) -> &[u8]
        ensures all { result.now ≡ self.now }
        ensures within { length self.now ≤ N }
    {
        &self.bytes[..self.count]
    }

    /// Writes this text behind what is written.
    pub fn push_all(&mut self, text: &[u8]) -> Result<(), Full>
        ensures { Pushes N text.now self.old self.new result }
    {
        if text.len() > N - self.count {
            return Err(Full);
        }
        let end = self.count + text.len();
        // Of an array of N places no part is lent, but of a slice of it.
        let bytes = &mut self.bytes[..];
        bytes[self.count..end].copy_from_slice(text);
        self.count = end;
        Ok(())
    }

    /// Writes this character.
    pub fn push(&mut self, character: u8) -> Result<(), Full>
        ensures { Pushes N (character ∷ []) self.old self.new result }
    {
        self.push_all(&[character])
    }

    /// Writes all of it at the front of this text, where it fits, and answers how many characters that are.
    pub fn copy_into(&self, text: &mut [u8]) -> Result<usize, Full>
        ensures { Writes self.now text.old text.new result }
    {
        if text.len() < self.count {
            return Err(Full);
        }
        text[..self.count].copy_from_slice(self.text());
        Ok(self.count)
    }
}

#[cfg(test)]
mod tests {
    use super::*;
    use std::test::Fail;

    #[test]
    fn writes_one_after_another(rt: HostRuntime) -> Result<(), Fail> {
        let mut pen: Pen<9> = Pen::new();
        assert_eq!(rt; pen.text(), b"".as_slice());
        assert!(rt; pen.push_all(b"RC20").is_ok());
        assert!(rt; pen.push(b' ').is_ok());
        assert!(rt; pen.push_all(b"0512").is_ok());
        assert_eq!(rt; pen.text(), b"RC20 0512".as_slice());
        let mut text = [b'.'; 11];
        assert_eq!(rt; pen.copy_into(&mut text).ok(), Some(9));
        assert_eq!(rt; &text, b"RC20 0512..");
        Ok(())
    }

    #[test]
    fn leaves_what_is_there_where_a_text_does_not_fit(rt: HostRuntime) -> Result<(), Fail> {
        let mut pen: Pen<6> = Pen::new();
        assert!(rt; pen.push_all(b"RC20").is_ok());
        assert!(rt; pen.push_all(b"512").is_err());
        assert!(rt; pen.push_all(b" 24").is_err());
        assert_eq!(rt; pen.text(), b"RC20".as_slice());
        assert!(rt; pen.push_all(b" 9").is_ok());
        assert!(rt; pen.push(b'.').is_err());
        assert_eq!(rt; pen.text(), b"RC20 9".as_slice());
        let mut text = [b'.'; 5];
        assert!(rt; pen.copy_into(&mut text).is_err());
        assert_eq!(rt; &text, b".....");
        Ok(())
    }
}
