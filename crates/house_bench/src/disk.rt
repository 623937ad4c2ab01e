// The pages that a house is on: in memory, or in a file as `boat` has them.
use device::Page;
use std::alloc::{AllocError, Global};
use std::fs::File;
use std::io;
use std::os::unix::fs::FileExt;

#[derive(Drop)]
pub enum Disk {
    Memory(Vec<Page>),
    File(File),
}

fn place_of(k: u64) -> u64 {
    k.saturating_mul(512)
}

impl Disk {
    pub fn memory(heap: Global, pages: u64) -> Result<Disk, AllocError> {
        Ok(Disk::Memory(vec![in heap; [0u8; 512]; pages as usize]?))
    }

    // A new file.
    pub fn file(rt: &HostRuntime, path: &str, pages: u64) -> io::Result<Disk> {
        let file = File::create_new(rt, path)?;
        file.set_len(place_of(pages))?;
        file.sync_all()?;
        Ok(Disk::File(file))
    }

    pub fn read(&self, k: u64) -> io::Result<Page> {
        match self {
            Disk::Memory(pages) => Ok(pages.get(k as usize).copied().unwrap_or([0; 512])),
            Disk::File(file) => {
                let mut page = [0u8; 512];
                file.read_exact_at(&mut page, place_of(k))?;
                Ok(page)
            }
        }
    }

    pub fn write(&mut self, k: u64, page: &Page) -> io::Result<()> {
        match self {
            Disk::Memory(pages) => {
                if let Some(place) = pages.get_mut(k as usize) {
                    *place = *page;
                }
                Ok(())
            }
            Disk::File(file) => file.write_all_at(page, place_of(k)),
        }
    }

    pub fn flush(&self) -> io::Result<()> {
        match self {
            Disk::Memory(_) => Ok(()),
            Disk::File(file) => file.sync_data(),
        }
    }
}
