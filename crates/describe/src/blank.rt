// Tables before set-up. What they hold does not matter, since set-up writes what it uses.
use rows::record::Record;
use rows::row::Row;
use std::alloc::{AllocError, Global};
use tables::tables::Tables;
use values::value::Value;

// Records and rows for a ring of so many parties.
#[derive(Drop)]
pub struct Places<V> {
    records: Vec<Record<V>>,
    rows: Vec<Row<V>>,
}

impl<V: Value> Places<V> {
    pub fn new(heap: Global, parties: usize) -> Result<Places<V>, AllocError> {
        Ok(Places {
            records: vec![in heap; Record::new(&V::blank()); parties]?,
            rows: vec![in heap; Row::empty(); parties.saturating_mul(parties)]?,
        })
    }

    // A ring before set-up, over these places.
    pub fn tables(&mut self) -> Tables<V> {
        Tables::new(self.records.as_mut_slice(), self.rows.as_mut_slice())
    }
}
