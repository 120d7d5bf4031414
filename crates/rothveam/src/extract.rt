use crate::failure::Failure;
use crate::output::Output;
use reel::block::Block;
use report::entry::Entry;
use report::names::{FileName, ManifestLine};
use report::visit::Visitor;
use std::fmt::Write;
use std::fs::File;
use std::{fmt, fs};

/// Writes each packet into a file, and a line on each entry into the manifest.
#[derive(Drop)]
pub struct Extractor<'r, 'd, 'm> {
    pub rt: &'r HostRuntime,
    pub directory: &'d str,
    pub manifest: &'m mut Output<File>,
    /// How many packets have come.
    pub order: u64,
    pub superframe: u64,
}

impl Extractor<'_, '_, '_> {
    /// Writes a packet into its file.
    fn save(&mut self, name: FileName, bytes: &[u8]) -> fmt::Result {
        let directory = self.directory;
        let path = format!(in self.rt.alloc(); "{directory}/{name}")?;
        fs::write(self.rt, path.as_str(), bytes).map_err(|fault| {
            Failure::NotWritten(path.as_str(), Some(fault)).tell(self.rt);
            fmt::Error
        })
    }
}

impl Visitor for Extractor<'_, '_, '_> {
    fn superframe(&mut self, number: u64, _block: Block<'_>) -> fmt::Result {
        self.superframe = number;
        Ok(())
    }

    fn entry(&mut self, entry: Entry, packet: &[u8]) -> fmt::Result {
        if let Entry::Packet(facts) = entry {
            self.order = self.order.saturating_add(1);
            let order = self.order;
            self.save(
                FileName {
                    order,
                    packet: facts,
                },
                packet,
            )?;
        }
        let line = ManifestLine {
            order: self.order,
            superframe: self.superframe,
            entry,
            bytes: packet,
        };
        self.manifest.write(line)
    }

    fn superframe_end(&mut self) -> fmt::Result {
        Ok(())
    }
}
