// Lists of strings in a record.

/// A list of strings in a record, by its bytes: each string is one length byte and that many bytes. As an iterator it
/// gives the strings in order.
#[derive(Clone, Copy)]
pub struct Strings<'a> {
    /// how many strings are left
    pub count: u8,
    /// the bytes that the first of them begins
    pub bytes: &'a [u8],
}

impl<'a> Iterator for Strings<'a> {
    ghost use Rattle.std.specs.Iterator.{YieldsFirstRef, item_count};
    ghost use Rattle.records.specs.Bodies.{texts, bytes_in, Short};

    type Item = &'a [u8];

    ghost next_gives = { λ s r t. YieldsFirstRef texts s r t × Short (bytes_in r) };

    ghost remaining = { item_count texts };

    // The next string.
    fn next(&mut self) -> Option<&'a [u8]> {
        if self.count == 0 {
            return None;
        }
        let (n, tail) = self.bytes.split_first()?;
        let n = usize::from(*n).min(tail.len());
        let (string, bytes) = tail.split_at(n);
        *self = Strings {
            count: self.count - 1,
            bytes,
        };
        Some(string)
    }
}
