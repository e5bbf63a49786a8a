// The walk over the entries below a subprogram, one after another.
ghost use Rattle.tlv.specs.Checked.{Placed};
ghost use Rattle.tlv.specs.Refusals.{status_of};
ghost use Rattle.access.specs.Places.{entry_here};
ghost use Rattle.references.specs.Tables.{EntryKnown};
ghost use Rattle.imports.specs.Tree.{collect_entries};
ghost use Rattle.imports.specs.Import.{descendants_of};
ghost use Rattle.dies.specs.Details.{DetailsIn, EntriesKnown, context_now, entries_from, main_of, supplementary_of};
ghost use Rattle.dies.specs.DetailState.{Shut, none_later, Fits, FitsAt, Advances, Steps, step_entry};

use crate::details::Details;
use crate::frames::Open;
use crate::sites::Sites;
use tlv::bytes::Number;
use tlv::constants::{DW_TAG_CALL_SITE, DW_TAG_INLINED_SUBROUTINE};
use tlv::fields::next_field;
use tlv::refusal::Refusal;
use tlv::tags::{ENTRY_DEPTH, ENTRY_KIND, ENTRY_TAG, UNIT_TAG};

// What changes from entry to entry: the open nodes, how many call sites are open and closed, how many nodes there are,
// the places in the records and the warnings, and whether the records pass the largest place.
#[derive(Clone, Copy, Debug)]
pub struct Walk {
    pub frames: Open,
    pub sites: Sites,
    pub nodes: usize,
    pub at: usize,
    pub warned: usize,
    pub past: bool,
}

impl Details<'_> {
    // Closes the nodes and the call sites of entries at this depth or deeper.
    pub fn close(&self, work: &mut [u8], walk: &mut Walk, depth: u16)
        requires details_in { DetailsIn (main_of self.now) (supplementary_of self.now) work.old self.now }
        requires fits { Fits (main_of self.now) (supplementary_of self.now) work.old self.now none_later 0 walk.old }
        ensures { Shut (main_of self.now) (supplementary_of self.now) self.now depth work.old walk.old work.new walk.new }
    {
        walk.frames.finish_inlines(depth);
        walk.sites = walk
            .sites
            .finish_call_sites(work, self.context.stack, self.context.sites, depth);
    }

    // One entry: those that end before it are closed, and it is a call site, an inlined call, or neither.
    fn collect_entry(
        &self,
        work: &mut [u8],
        records: &mut [u8],
        warnings: &mut [u8],
        p: usize,
        walk: &mut Walk,
    ) -> Result<(), Refusal>
        requires details_in { DetailsIn (main_of self.now) (supplementary_of self.now) work.old self.now }
        requires entry_known { EntryKnown (main_of self.now) self.now.context.unit p }
        requires fits { FitsAt work.old self.now p walk.old }
        ensures { Steps (step_entry (context_now work.old self.now) (entry_here (main_of self.now) p)) self.now p
            work.old records.old warnings.old walk.old work.new records.new warnings.new (status_of result) walk.new }
    {
        let main = self.context.tables.sheets.main;
        let depth = u16::read(main, p + ENTRY_DEPTH);
        self.close(work, walk, depth);
        let tag = u16::read(main, p + ENTRY_KIND);
        if tag == DW_TAG_CALL_SITE && self.context.include_call_sites {
            return self.make_call_site(work, p, walk);
        }
        if tag == DW_TAG_INLINED_SUBROUTINE && self.context.include_inlines {
            return self.make_inline_node(work, records, warnings, p, walk);
        }
        Ok(())
    }

    // The entries from place p on that are deeper than the function.
    #[tactic(auto, using(tlv::proofs::FieldLaws::goes_on))]
    pub fn collect_entries(
        &self,
        work: &mut [u8],
        records: &mut [u8],
        warnings: &mut [u8],
        p: usize,
        walk: &mut Walk,
    ) -> Result<(), Refusal>
        requires details_in { DetailsIn (main_of self.now) (supplementary_of self.now) work.old self.now }
        requires placed { Placed (main_of self.now) p }
        requires entries_known { EntriesKnown (main_of self.now) self.now.context.unit p }
        requires fits { FitsAt work.old self.now p walk.old }
        ensures { Advances (collect_entries (context_now work.old self.now)
            (descendants_of self.now.depth (entries_from (main_of self.now) p)))
            (main_of self.now) (supplementary_of self.now) self.now.name.now self.now none_later 0
            work.old records.old warnings.old walk.old work.new records.new warnings.new (status_of result) walk.new }
    {
        let main = self.context.tables.sheets.main;
        let mut at = p;
        // Stays a loop over fields: next_field says why.
        while let Some(field) = next_field(main, at) {
            if field.tag == UNIT_TAG {
                return Ok(());
            }
            if field.tag == ENTRY_TAG {
                if u16::read(main, at + ENTRY_DEPTH) <= self.depth {
                    return Ok(());
                }
                self.collect_entry(work, records, warnings, at, walk)?;
            }
            at = field.next;
        }
        Ok(())
    }
}
