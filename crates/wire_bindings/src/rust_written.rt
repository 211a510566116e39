//! How a message of the Rust crate is measured and written.

/// The calls of one that is written alone.
pub const CALLS: &str = "    /// How many bytes the encoding has.
    pub fn size(&self) -> usize {
        ffi::size(self)
    }

    /// Writes the encoding at the front of the room, and says how many bytes it has.
    pub fn write(&self, room: &mut [u8]) -> Result<usize, NoRoom> {
        ffi::write(self, room)
    }

    /// The encoding.
    pub fn to_vec(&self) -> Vec<u8> {
        let mut bytes = vec![0; self.size()];
        let _ = self.write(&mut bytes);
        bytes
    }

    /// How many bytes the encoding has with the unknown fields of these bytes behind it:
    /// the records of other numbers, usually of the bytes that the message was read from.
    pub fn size_keeping(&self, bytes: &[u8]) -> Result<usize, Refusal> {
        ffi::size_keeping(self, bytes)
    }

    /// Writes that encoding at the front of the room, and says how many bytes it has.
    pub fn write_keeping(&self, bytes: &[u8], room: &mut [u8]) -> Result<usize, NotWritten> {
        ffi::write_keeping(self, bytes, room)
    }

    /// That encoding.
    pub fn to_vec_keeping(&self, bytes: &[u8]) -> Result<Vec<u8>, Refusal> {
        let mut room = vec![0; self.size_keeping(bytes)?];
        let _ = self.write_keeping(bytes, &mut room);
        Ok(room)
    }
";

/// The calls of one with lists.
pub const CALLS_WITH_LISTS: &str = "    /// How many bytes the encoding has, with these lists.
    pub fn size(&self, lists: &$name$Lists<'_>) -> usize {
        ffi::size_with(self, lists)
    }

    /// Writes the encoding at the front of the room, and says how many bytes it has.
    pub fn write(&self, lists: &$name$Lists<'_>, room: &mut [u8]) -> Result<usize, NoRoom> {
        ffi::write_with(self, lists, room)
    }

    /// The encoding.
    pub fn to_vec(&self, lists: &$name$Lists<'_>) -> Vec<u8> {
        let mut bytes = vec![0; self.size(lists)];
        let _ = self.write(lists, &mut bytes);
        bytes
    }

    /// How many bytes the encoding has with the unknown fields of these bytes behind it:
    /// the records of other numbers, usually of the bytes that the message was read from.
    pub fn size_keeping(&self, lists: &$name$Lists<'_>, bytes: &[u8]) -> Result<usize, Refusal> {
        ffi::size_keeping_with(self, lists, bytes)
    }

    /// Writes that encoding at the front of the room, and says how many bytes it has.
    pub fn write_keeping(
        &self,
        lists: &$name$Lists<'_>,
        bytes: &[u8],
        room: &mut [u8],
    ) -> Result<usize, NotWritten> {
        ffi::write_keeping_with(self, lists, bytes, room)
    }

    /// That encoding.
    pub fn to_vec_keeping(
        &self,
        lists: &$name$Lists<'_>,
        bytes: &[u8],
    ) -> Result<Vec<u8>, Refusal> {
        let mut room = vec![0; self.size_keeping(lists, bytes)?];
        let _ = self.write_keeping(lists, bytes, &mut room);
        Ok(room)
    }
";
