// The text that is printed: collected in a buffer, and written out where the buffer is full.
ghost use Rattle.std.specs.Prelude.{◌≤◌};

const LENGTH: usize = 65536;

// It has no Drop, so that no text is left unwritten: who makes one must flush it. By hand and not by `write!`, whose Result each
// call would have to handle though no text can fail.
pub struct Text {
    buffer: [u8; LENGTH],
    // The place behind what was put.
    at: usize,
    ghost within: { at ≤ 65536 },
}

impl Text {
    pub fn new() -> Text {
        Text {
            buffer: [0; LENGTH],
            at: 0,
        }
    }

    // Puts a byte.
    pub fn put(&mut self, byte: u8) {
        if self.at == LENGTH {
            io::write_all(1, &self.buffer);
            self.at = 0;
        }
        self.buffer[self.at] = byte;
        self.at += 1;
    }

    // Writes out what is not written yet.
    pub fn flush(self) {
        let Text { buffer, at } = self;
        io::write_all(1, &buffer[..at]);
    }

    // Puts every byte of a word.
    pub fn put_word(&mut self, word: &[u8]) {
        for &byte in word {
            self.put(byte);
        }
    }

    // Puts a whole number in decimal.
    pub(crate) fn put_whole(&mut self, number: usize) {
        let mut digits = [0u8; 20];
        let n = io::decimal(number as u64, &mut digits);
        self.put_word(&digits[..n]);
    }

    // Puts the 16 small hex digits of a float's bits, or nan.
    pub(crate) fn put_float(&mut self, number: f64) {
        if number.is_nan() {
            self.put_word(b"nan");
            return;
        }
        let mut digits = [0u8; 16];
        let n = io::hex(f64::to_bits(number), 16, &mut digits);
        self.put_word(&digits[..n]);
    }

    // Puts a number in decimal, with a minus before a negative one.
    pub(crate) fn put_signed(&mut self, number: i32) {
        if number < 0 {
            self.put(b'-');
        }
        self.put_whole(number.unsigned_abs() as usize);
    }

    // Puts the items of a part, with a space between two.
    pub(crate) fn put_all<T, F: Fn(&mut Text, &T)>(&mut self, items: &[T], put_item: F)
        requires { F.IsAlwaysCallable put_item }
    {
        for (k, item) in items.iter().enumerate() {
            if k != 0 {
                self.put(b' ');
            }
            put_item(self, item);
        }
    }

    // Puts bytes as two small hex digits each, with nothing between.
    pub(crate) fn put_hex(&mut self, bytes: &[u8]) {
        for &byte in bytes {
            let mut digits = [0u8; 16];
            let n = io::hex(u64::from(byte), 2, &mut digits);
            self.put_word(&digits[..n]);
        }
    }

    // Puts what a program prints, on one line: a newline shows as a slash between spaces.
    pub(crate) fn put_shown(&mut self, printed: &[u8]) {
        for &byte in printed {
            match byte {
                b'\n' => self.put_word(b" / "),
                _ => self.put(byte),
            }
        }
    }
}
