// Files made of records.
use std::alloc::{AllocError, Global};

// A file in the making: the version byte, and then records.
#[derive(Drop)]
pub struct File {
    bytes: Vec<u8>,
}

impl File {
    pub fn new(heap: Global) -> Result<File, AllocError> {
        let mut bytes = Vec::new(heap);
        bytes.push(1)?;
        Ok(File { bytes })
    }

    // A file of these records, each a kind and a body.
    pub fn of(heap: Global, records: &[&[u8]]) -> Result<File, AllocError> {
        let mut file = File::new(heap)?;
        for entry in records {
            file.push(entry)?;
        }
        Ok(file)
    }

    // Writes a record behind the others: its length in two bytes, and then its kind and its body.
    pub fn push(&mut self, entry: &[u8]) -> Result<(), AllocError> {
        let [.., high, low] = entry.len().to_be_bytes();
        self.bytes.push(high)?;
        self.bytes.push(low)?;
        self.bytes.extend_from_slice(entry)
    }

    // A record of a kind with so many times the same byte for a body.
    pub fn push_filled(
        &mut self,
        heap: Global,
        kind: u8,
        fill: u8,
        count: usize,
    ) -> Result<(), AllocError> {
        let mut entry = Vec::new(heap);
        entry.push(kind)?;
        for _ in 0..count {
            entry.push(fill)?;
        }
        self.push(entry.as_slice())
    }

    pub fn bytes(&self) -> &[u8] {
        self.bytes.as_slice()
    }
}
