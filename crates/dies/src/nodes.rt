// Inlined nodes: their depth, their bytes, and the frame that each opens.
ghost use Rattle.std.specs.Prelude.{◌≡◌, ◌+◌, ◌*◌, ◌≤◌, ◌<◌, leb, length};
ghost use Rattle.tlv.specs.Refusals.{status_of};
ghost use Rattle.buffers.specs.Buffer.{Put};
ghost use Rattle.buffers.specs.Output.{node_bytes};
ghost use Rattle.access.specs.Places.{entry_here};
ghost use Rattle.references.specs.Tables.{EntryKnown};
ghost use Rattle.imports.specs.Tree.{inline_depth_limit, push_inline, make_inline_node};
ghost use Rattle.ranges.specs.RangeTable.{ranges_at, range_record};
ghost use Rattle.dies.specs.Details.{DetailsIn, context_now, main_of, supplementary_of};
ghost use Rattle.dies.specs.DetailState.{FitsAt, OwnRanges, Steps, lead_bytes};

use crate::calls::{call_file, call_line};
use crate::details::Details;
use crate::past::node_past;
use crate::walk::Walk;
use buffers::output::DEEPEST_NODE;
use buffers::table::Stored;
use ranges::inlined::inline_ranges;
use ranges::ranges::{RANGE_RECORD, RangeNest, RangeTable};
use references::names::{found_name, resolve_name};
use tlv::bytes::Number;
use tlv::model::FileIndex;
use tlv::refusal::Refusal;
use tlv::tags::{ENTRY_DEPTH, ENTRY_WHOLE};

// A node but for its ranges: the depth below the root, the call's file and line, the name.
#[derive(Clone, Copy, Debug)]
struct Node<'a> {
    depth: u16,
    file: FileIndex,
    line: u32,
    name: &'a [u8],
    ghost name_bound: { 10 + length name.now < 65536 },
}

// A node with its ranges.
fn put_inline_node(records: &mut [u8], at: usize, node: Node, ranges: RangeTable) -> usize
    ensures { Put at (node_bytes (record {
      depth = node.entry.depth;
      call_file = node.entry.file;
      call_line = node.entry.line;
      name = node.entry.name.now;
      ranges = ranges_at ranges.entry.work.now ranges.entry.stored.base ranges.entry.stored.count;
    })) records.old records.new result }
{
    let headed = buffers::output::put_node(
        records, at, node.depth, node.file, node.line, node.name,
    );
    ranges::ranges::put_ranges(records, headed, ranges)
}

// Whether a node that is so many below the root may be kept.
fn check_inline_depth(depth: usize) -> bool
    ensures { result ≡ leb depth inline_depth_limit }
{
    depth <= DEEPEST_NODE
}

// An inlined call that is kept: the place of its entry, its name, and how many merged ranges it has, which stand above the stack of ranges.
// Stays a count: where the ranges begin follows from the open nodes, so a `Stored` would come with a clause that it begins there.
#[derive(Clone, Copy, Debug)]
struct InlinedCall<'a> {
    place: usize,
    name: &'a [u8],
    range_count: usize,
    ghost name_bound: { 10 + length name.now < 65536 },
    ghost some: { 0 < range_count },
}

impl Details<'_> {
    // The root, which bears the function's name and range, before the first node.
    fn put_root(&self, records: &mut [u8], at: usize, nodes: usize) -> usize
        ensures { Put at (lead_bytes self.now.name.now self.now.range nodes) records.old records.new result }
    {
        if nodes != 0 {
            return at;
        }
        let headed = buffers::output::put_node(records, at, 0, FileIndex(0), 0, self.name);
        buffers::output::put_range(records, headed, self.range)
    }

    // A call becomes a node, which is laid and opened.
    fn keep_node(
        &self,
        work: &[u8],
        records: &mut [u8],
        warnings: &mut [u8],
        call: InlinedCall,
        walk: &mut Walk,
    ) -> Result<(), Refusal>
        requires details_in { DetailsIn (main_of self.now) (supplementary_of self.now) work.now self.now }
        requires entry_known { EntryKnown (main_of self.now) self.now.context.unit call.place }
        requires fits { FitsAt work.now self.now call.place walk.old }
        requires own_ranges { OwnRanges (main_of self.now) self.now call.place call.range_count }
        ensures { Steps (push_inline (context_now work.now self.now) (entry_here (main_of self.now) call.entry.place)
            call.entry.name.now (ranges_at work.now (self.now.context.ranges + walk.old.frames.used * range_record) call.entry.range_count))
            self.now call.entry.place work.now records.old warnings.old walk.old work.now records.new warnings.new
            (status_of result) walk.new }
    {
        let context = &self.context;
        let main = context.tables.sheets.main;
        let entry = context.entry(call.place);
        let file = call_file(main, work, warnings, context.indices, entry, walk.warned)?;
        let line = call_line(main, warnings, entry, file.at)?;
        if !check_inline_depth(walk.frames.count + 1) {
            return Err(Refusal::TooDeep);
        }
        let node = Node {
            depth: (walk.frames.count + 1) as u16,
            file: file.value,
            line: line.value,
            name: call.name,
        };
        let above = context.ranges + walk.frames.used * RANGE_RECORD;
        let ranges = RangeTable {
            work,
            stored: Stored::new(above, call.range_count),
        };
        let past = node_past(
            walk.at,
            walk.nodes,
            self.name.len(),
            call.name.len(),
            call.range_count,
        );
        let rooted = self.put_root(records, walk.at, walk.nodes);
        walk.at = put_inline_node(records, rooted, node, ranges);
        walk.warned = line.at;
        walk.past = walk.past || past;
        walk.nodes += 1;
        let depth = u16::read(main, call.place + ENTRY_DEPTH);
        walk.frames.push(depth, call.range_count);
        Ok(())
    }

    // An inlined entry.
    pub fn make_inline_node(
        &self,
        work: &mut [u8],
        records: &mut [u8],
        warnings: &mut [u8],
        p: usize,
        walk: &mut Walk,
    ) -> Result<(), Refusal>
        requires details_in { DetailsIn (main_of self.now) (supplementary_of self.now) work.old self.now }
        requires entry_known { EntryKnown (main_of self.now) self.now.context.unit p }
        requires fits { FitsAt work.old self.now p walk.old }
        ensures { Steps (make_inline_node (context_now work.old self.now) (entry_here (main_of self.now) p)) self.now p
            work.old records.old warnings.old walk.old work.new records.new warnings.new (status_of result) walk.new }
    {
        let context = &self.context;
        let main = context.tables.sheets.main;
        let entry = context.entry(p);
        let inlined = resolve_name(work, context.tables, entry)?;
        let Some(name) = found_name(inlined) else {
            return Ok(());
        };
        let used = walk.frames.used;
        let top = walk.frames.innermost();
        let nest = RangeNest {
            parent: Stored::new(context.ranges + top * RANGE_RECORD, used - top),
            to: context.ranges + used * RANGE_RECORD,
        };
        let range_count = inline_ranges(
            main,
            context.lists,
            work,
            context.with_lists,
            p + ENTRY_WHOLE,
            nest,
        )?;
        if range_count == 0 {
            return Ok(());
        }
        let call = InlinedCall {
            place: p,
            name,
            range_count,
        };
        self.keep_node(work, records, warnings, call, walk)
    }
}
