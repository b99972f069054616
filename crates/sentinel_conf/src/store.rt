//! Where the text of one Sentinel's file is held: `ConfStore` is the place, which can be loaded and replaced as a
//! whole. `FileStore` is a file on a disk, and `MemoryStore` one in memory, for tests and for a Sentinel without a
//! file.

mod conf_store;
mod file_fault;
mod file_store;
mod own_file;

pub use ballot_law::Text as FileText;
pub use conf_store::{ConfStore, LoadFault, MemoryStore, StoreRefused};
pub use file_fault::{FileFault, FileStep};
pub use file_store::FileStore;
pub use own_file::{LocksAlone, give_access_of};
