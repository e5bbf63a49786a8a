// Inline trees and call sites of one function (the Rust's convert/dwarf/dies.rs).
ghost use Rattle.std.specs.Prelude.{◌≡◌, false, []};
ghost use Rattle.tlv.specs.Checked.{Placed};
ghost use Rattle.imports.specs.Import.{descendants_of};
ghost use Rattle.dies.specs.Details.{DetailsIn, EntriesKnown, ExtractsTo, entries_from, main_of, supplementary_of};
ghost use Rattle.dies.specs.DetailState.{DescendsTo};

use crate::details::Details;
use crate::frames::Open;
use crate::sites::Sites;
use crate::walk::Walk;
use tlv::bytes::Number;
use tlv::fields::next_field;
use tlv::refusal::Refusal;
use tlv::tags::{ENTRY_DEPTH, ENTRY_TAG, UNIT_TAG};

// How many inline nodes there are below the root, the places in the records and the warnings after them, and whether the records pass the largest place.
#[derive(Clone, Copy, Debug)]
pub struct Extracted {
    pub nodes: usize,
    pub at: usize,
    pub warned: usize,
    pub past: bool,
}

// Whether an entry deeper than depth may follow place p.
fn has_entries(main: &[u8], p: usize, depth: u16) -> bool
    requires { Placed main.now p }
    ensures { result ≡ false → descendants_of depth (entries_from main.now p) ≡ [] }
{
    let Some(field) = next_field(main, p) else {
        return false;
    };
    if field.tag == ENTRY_TAG {
        return depth < u16::read(main, p + ENTRY_DEPTH);
    }
    field.tag != UNIT_TAG
}

impl Details<'_> {
    // The nodes and the call sites of the function, from the entries that follow place p and are deeper than it.
    // Stays with three slices: close, make_call_site, put_sites and keep_node are lent one or two, or `work` only to be read, and would take a struct apart.
    fn collect_descendants(
        &self,
        work: &mut [u8],
        records: &mut [u8],
        warnings: &mut [u8],
        p: usize,
        at: usize,
        warned: usize,
    ) -> Result<Extracted, Refusal>
        requires details_in { DetailsIn (main_of self.now) (supplementary_of self.now) work.old self.now }
        requires placed { Placed (main_of self.now) p }
        requires entries_known { EntriesKnown (main_of self.now) self.now.context.unit p }
        ensures { DescendsTo self.now work.old work.new p at warned records.old records.new warnings.old warnings.new result }
    {
        buffers::table::put_range_at(work, self.context.ranges, self.range);
        let mut walk = Walk {
            frames: Open::none(),
            sites: Sites::default(),
            nodes: 0,
            at,
            warned,
            past: false,
        };
        self.collect_entries(work, records, warnings, p, &mut walk)?;
        self.close(work, &mut walk, 0);
        let sites = self.put_sites(work, records, &walk);
        Ok(Extracted {
            nodes: walk.nodes,
            at: sites.at,
            warned: walk.warned,
            past: walk.past || sites.past,
        })
    }

    // Writes the nodes and the call sites of the function, from the entries that follow place p and are deeper than it.
    // Where no such entry follows, and with both switches off, there is nothing to set up.
    pub fn extract_subprogram_details(
        self,
        work: &mut [u8],
        records: &mut [u8],
        warnings: &mut [u8],
        p: usize,
        at: usize,
        warned: usize,
    ) -> Result<Extracted, Refusal>
        requires details_in { DetailsIn (main_of self) (supplementary_of self) work.old self }
        requires placed { Placed (main_of self) p }
        requires entries_known { EntriesKnown (main_of self) self.context.unit p }
        ensures { ExtractsTo self.entry work.old work.new p at warned records.old records.new warnings.old warnings.new result }
    {
        if has_entries(self.context.tables.sheets.main, p, self.depth)
            && (self.context.include_inlines || self.context.include_call_sites)
        {
            return self.collect_descendants(work, records, warnings, p, at, warned);
        }
        Ok(Extracted {
            nodes: 0,
            at,
            warned,
            past: false,
        })
    }
}
