ghost use Rattle.std.specs.Prelude.{◌≡◌, ◌+◌, ◌≤◌, length};
ghost use Rattle.capture_numbers.specs.Numbers.{long_at, number_at, short_at};

/// The byte order of the numbers in a capture. It is the byte order of the machine that wrote the capture.
#[derive(Clone, Copy, Debug, PartialEq, Eq)]
pub enum ByteOrder {
    /// The most significant byte comes first.
    BigEndian,
    /// The least significant byte comes first.
    LittleEndian,
}

impl ByteOrder {
    /// The number in four bytes, in this order.
    pub fn number(self, bytes: [u8; 4]) -> u32
        ensures { result ≡ number_at self bytes 0 }
    {
        match self {
            ByteOrder::BigEndian => u32::from_be_bytes(bytes),
            ByteOrder::LittleEndian => u32::from_le_bytes(bytes),
        }
    }

    /// The number in the four bytes from a place on, in this order.
    pub fn number_in(self, bytes: &[u8], place: usize) -> u32
        requires { place + 4 ≤ length bytes.now }
        ensures { result ≡ number_at self bytes.now place }
    {
        self.number(*bytes[place..place + 4].as_array().unwrap())
    }

    /// The number in the two bytes from a place on, in this order.
    pub fn short_in(self, bytes: &[u8], place: usize) -> u16
        requires { place + 2 ≤ length bytes.now }
        ensures { result ≡ short_at self bytes.now place }
    {
        let number = [bytes[place], bytes[place + 1]];
        match self {
            ByteOrder::BigEndian => u16::from_be_bytes(number),
            ByteOrder::LittleEndian => u16::from_le_bytes(number),
        }
    }

    /// The number in the eight bytes from a place on, in this order.
    pub fn long_in(self, bytes: &[u8], place: usize) -> u64
        requires { place + 8 ≤ length bytes.now }
        ensures { result ≡ long_at self bytes.now place }
    {
        let first = u64::from(self.number_in(bytes, place));
        let second = u64::from(self.number_in(bytes, place + 4));
        match self {
            ByteOrder::BigEndian => first * 0x1_0000_0000 + second,
            ByteOrder::LittleEndian => first + second * 0x1_0000_0000,
        }
    }
}
