// A line of a report, which is put together before it is written.
use arrayvec::ArrayVec;
use nvme_output::{WriteFault, put};
use std::io::Write;
use std::marker::Model;

// More bytes than a line of a pick or of a completion has, its newline included.
const ROOM: usize = 256;

/// The beginning of a line. Contracts see its bytes.
#[derive(Drop)]
pub struct Line {
    bytes: ArrayVec<u8, ROOM>,
}

impl Model for Line {
    ghost use Rattle.std.specs.Prelude.{ℕ, ◌≤◌, List, length};

    ghost Value = { List ℕ };

    ghost view = { λ l. l.bytes.items };

    ghost invariant = { λ l. length l.bytes.items ≤ 256 };
}

impl Line {
    ghost use Rattle.std.specs.Prelude.{◌≡◌, ◌+◌, ◌<◌, ◌≤◌, [], ◌++◌, length, codes, decimal};
    ghost use Rattle.nvme_output.specs.Pieces.{hex_byte, hex_dword};
    ghost use Rattle.nvme_output.specs.Written.{Writes};

    /// Nothing of a line.
    pub fn new() -> Line
        ensures { result ≡ [] }
    {
        Line {
            bytes: ArrayVec::new(),
        }
    }

    // Adds bytes.
    fn add(&mut self, bytes: &[u8])
        requires { length self.old + length bytes.now ≤ 256 }
        ensures added { self.new ≡ self.old ++ bytes.now }
        ensures len { length self.new ≡ length self.old + length bytes.now }
    {
        let Ok(()) = self.bytes.try_extend_from_slice(bytes) else {
            unreachable!()
        };
    }

    /// Adds words.
    pub fn words(&mut self, words: &str)
        requires { length self.old + length words.now ≤ 256 }
        ensures added { self.new ≡ self.old ++ words.now }
        ensures len { length self.new ≡ length self.old + length words.now }
    {
        self.add(words.as_bytes());
    }

    /// Adds a number in decimal.
    pub fn number(&mut self, n: u64)
        requires { length self.old + 40 ≤ 256 }
        ensures added { self.new ≡ self.old ++ decimal n }
        ensures len { length self.new ≤ length self.old + 40 }
    {
        let mut buffer = itoa::Buffer::new();
        self.add(buffer.format(n).as_bytes());
    }

    /// Adds a byte as two hexadecimal digits.
    pub fn byte(&mut self, n: u8)
        requires { length self.old + 2 ≤ 256 }
        ensures added { self.new ≡ self.old ++ hex_byte n }
        ensures len { length self.new ≡ length self.old + 2 }
    {
        let mut digits = [b'0'; 2];
        let Ok(()) = hex::encode_to_slice([n].as_slice(), &mut digits) else {
            unreachable!()
        };
        self.add(&digits);
    }

    /// Adds a dword as eight hexadecimal digits.
    pub fn dword(&mut self, n: u32)
        requires { length self.old + 8 ≤ 256 }
        ensures added { self.new ≡ self.old ++ hex_dword n }
        ensures len { length self.new ≡ length self.old + 8 }
    {
        let mut digits = [b'0'; 8];
        let Ok(()) = hex::encode_to_slice(n.to_be_bytes().as_slice(), &mut digits) else {
            unreachable!()
        };
        self.add(&digits);
    }

    /// Ends the line and writes it, by one write if the writer takes it all. `WriteFault` as `put`.
    pub fn write<W: Write>(&mut self, writer: &mut W) -> Result<(), WriteFault>
        requires { length self.old < 256 }
        ensures { Writes (W.contents writer.old) (W.contents writer.new) result (self.old ++ codes "\n") }
    {
        self.add(b"\n");
        put(self.bytes.as_slice(), writer)
    }
}
