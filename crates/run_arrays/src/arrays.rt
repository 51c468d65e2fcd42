// What a run reads and what it changes, each section in an array of its own that has room for the largest sheet: the front of an array is in use. Behind the
// front nothing is read, and nothing is said of it. What they represent is in specs/.
ghost use Rattle.std.specs.Prelude.{◌≡◌, ◌-◌, ◌*◌, ◌<◌, ◌≤◌, length, replicate, set, take};
ghost use Rattle.indices.specs.Columns.{at};
ghost use Rattle.sheet.specs.Limits.{most_nodes, most_arcs, most_spans};
ghost use Rattle.procedure.specs.Table.{counts_length};
ghost use Rattle.run_arrays.specs.Rows.{row_tail, row_head, row_leaf, row_next};
ghost use Rattle.run_arrays.specs.Sections.{most_regions, most_places};
ghost use Rattle.run_arrays.specs.Fixed.{HasSpan};
ghost use Rattle.run_arrays.specs.States.{Empty};

use crate::rows::{HEAD, LEAF, NEXT, TAIL};
use run_counts::array::COUNTS;
use sheet::{Arc, NONE, Node, Region};

// In place of an inner region's arc.
pub const INNER: u16 = 65535;

// The most nodes, arcs and regions.
pub const NODES: usize = sheet::MOST_NODES as usize;

pub const ARCS: usize = sheet::MOST_ARCS;

pub const REGIONS: usize = sheet::MOST_REGION_WORDS + 1;

// Two places of the trees for each region.
pub const PLACES: usize = 2 * REGIONS;

// What a run reads: rows of four of the regions, for the queues; each region's arc; rows of four of the arcs; each node's first arc; the number of arcs; each
// arc's length; each height's span; each region's height.
#[derive(Drop)]
pub struct Layout {
    pub rows: [u16; 4 * REGIONS],
    pub region_arcs: [u16; REGIONS],
    pub arc_rows: [u16; 4 * ARCS],
    pub firsts: [u16; NODES],
    pub arcs: u16,
    pub lengths: [u32; ARCS],
    pub spans: [u32; sheet::MOST_SPANS],
    pub heights: [u32; REGIONS],
}

// The keys of a run: the own key of each arc's leaf, and the places of the winner trees.
#[derive(Drop)]
pub struct Keys {
    pub own: [u32; ARCS],
    pub winners: [u64; PLACES],
}

// What a run changes: each node's label and predecessor, the keys, and the counts.
#[derive(Drop)]
pub struct Run {
    pub labels: [u32; NODES],
    pub predecessors: [u32; NODES],
    pub keys: Keys,
    pub counts: [u64; COUNTS],
}

impl Layout {
    // A layout whose arrays hold zeros, to be filled: a value of zeros alone is built in place.
    pub fn zero() -> Self
        ensures { result ≡ record {
          rows = replicate (4 * most_regions) 0;
          region_arcs = replicate most_regions 0;
          arc_rows = replicate (4 * most_arcs) 0;
          firsts = replicate most_nodes 0;
          arcs = 0;
          lengths = replicate most_arcs 0;
          spans = replicate most_spans 0;
          heights = replicate most_regions 0;
        } }
    {
        Layout {
            rows: [0; 4 * REGIONS],
            region_arcs: [0; REGIONS],
            arc_rows: [0; 4 * ARCS],
            firsts: [0; NODES],
            arcs: 0,
            lengths: [0; ARCS],
            spans: [0; sheet::MOST_SPANS],
            heights: [0; REGIONS],
        }
    }

    pub fn tail(&self, a: Arc) -> Node
        requires { a.0 < most_arcs }
        ensures { result.0 ≡ row_tail self.now.arc_rows a.0 }
    {
        Node(crate::rows::field(&self.arc_rows, a.0, TAIL))
    }

    pub fn head(&self, a: Arc) -> Node
        requires { a.0 < most_arcs }
        ensures { result.0 ≡ row_head self.now.arc_rows a.0 }
    {
        Node(crate::rows::field(&self.arc_rows, a.0, HEAD))
    }

    pub fn leaf(&self, a: Arc) -> Region
        requires { a.0 < most_arcs }
        ensures { result.0 ≡ row_leaf self.now.arc_rows a.0 }
    {
        Region(crate::rows::field(&self.arc_rows, a.0, LEAF))
    }

    // The next arc with the same tail; the number of arcs where there is none.
    pub fn next(&self, a: Arc) -> Arc
        requires { a.0 < most_arcs }
        ensures { result.0 ≡ row_next self.now.arc_rows a.0 }
    {
        Arc(crate::rows::field(&self.arc_rows, a.0, NEXT))
    }

    // The first arc whose tail is v; the number of arcs where there is none.
    pub fn first(&self, v: Node) -> Arc
        requires { v.0 < most_nodes }
        ensures { result.0 ≡ at self.now.firsts v.0 }
    {
        Arc(self.firsts[v.0 as usize])
    }

    // The arc of region r, INNER where it is inner.
    pub fn arc(&self, r: Region) -> Arc
        requires { r.0 < most_regions }
        ensures { result.0 ≡ at self.now.region_arcs r.0 }
    {
        Arc(self.region_arcs[r.0 as usize])
    }

    // The height of region r.
    pub fn height(&self, r: Region) -> u32
        requires { r.0 < most_regions }
        ensures { result ≡ at self.now.heights r.0 }
    {
        self.heights[r.0 as usize]
    }

    // The place of region r, which is inner, among heights 1, 2, 3 and so on.
    pub fn level(&self, r: Region) -> usize
        requires { HasSpan self.now.heights r.0 }
        ensures { result ≡ at self.now.heights r.0 - 1 }
    {
        self.height(r) as usize - 1
    }

    // The span of region r, which is inner: that of its height.
    pub fn span(&self, r: Region) -> u32
        requires { HasSpan self.now.heights r.0 }
        ensures { result ≡ at self.now.spans (at self.now.heights r.0 - 1) }
    {
        self.spans[self.level(r)]
    }

    pub fn arc_length(&self, a: Arc) -> u32
        requires { a.0 < most_arcs }
        ensures { result ≡ at self.now.lengths a.0 }
    {
        self.lengths[a.0 as usize]
    }
}

impl Keys {
    // The own key of arc a's leaf.
    pub fn own_key(&self, a: Arc) -> u32
        requires { a.0 < most_arcs }
        ensures { result ≡ at self.now.own a.0 }
    {
        self.own[a.0 as usize]
    }

    pub fn set_own_key(&mut self, a: Arc, key: u32)
        requires { a.0 < most_arcs }
        ensures { self.new ≡ record self.old { own = set self.old.own a.0 key } }
    {
        self.own[a.0 as usize] = key;
    }
}

impl Run {
    // A run whose arrays hold zeros, to be cleared or filled: a value of zeros alone is built in place.
    pub fn zero() -> Self
        ensures { result ≡ record {
          labels = replicate most_nodes 0;
          predecessors = replicate most_nodes 0;
          keys = record { own = replicate most_arcs 0; winners = replicate most_places 0 };
          counts = replicate counts_length 0;
        } }
    {
        Run {
            labels: [0; NODES],
            predecessors: [0; NODES],
            keys: Keys {
                own: [0; ARCS],
                winners: [0; PLACES],
            },
            counts: [0; COUNTS],
        }
    }

    // No node has a label or a predecessor any more, and no leaf an own key.
    pub fn clear(&mut self)
        ensures { Empty self.new }
    {
        self.labels.fill(NONE);
        self.predecessors.fill(NONE);
        self.keys.own.fill(NONE);
    }

    pub fn label(&self, v: Node) -> u32
        requires { v.0 < most_nodes }
        ensures { result ≡ at self.now.labels v.0 }
    {
        self.labels[v.0 as usize]
    }

    // The labels of the first n nodes.
    pub fn labels_of(&self, n: usize) -> &[u32]
        requires { n ≤ most_nodes }
        ensures { result.now ≡ take n self.now.labels }
    {
        &self.labels[..n]
    }

    // The predecessors of the first n nodes.
    pub fn predecessors_of(&self, n: usize) -> &[u32]
        requires { n ≤ most_nodes }
        ensures { result.now ≡ take n self.now.predecessors }
    {
        &self.predecessors[..n]
    }

    // The own keys of the first n arcs.
    pub fn own_keys_of(&self, n: usize) -> &[u32]
        requires { n ≤ most_arcs }
        ensures { (result.now ≡ take n self.now.keys.own) × (length result.now ≡ n) }
    {
        &self.keys.own[..n]
    }

    pub fn set_label(&mut self, v: Node, label: u32)
        requires { v.0 < most_nodes }
        ensures { self.new ≡ record self.old { labels = set self.old.labels v.0 label } }
    {
        self.labels[v.0 as usize] = label;
    }

    // The label of v becomes `label`, and its predecessor `predecessor`, which may be none.
    pub fn set_node(&mut self, v: Node, label: u32, predecessor: u32)
        requires { v.0 < most_nodes }
        ensures { self.new ≡ record self.old {
          labels = set self.old.labels v.0 label;
          predecessors = set self.old.predecessors v.0 predecessor;
        } }
    {
        self.labels[v.0 as usize] = label;
        self.predecessors[v.0 as usize] = predecessor;
    }

    // The label of v becomes `label`, and a its predecessor.
    pub fn lower_label(&mut self, v: Node, label: u32, a: Arc)
        requires { v.0 < most_nodes }
        ensures { self.new ≡ record self.old {
          labels = set self.old.labels v.0 label;
          predecessors = set self.old.predecessors v.0 a.0;
        } }
    {
        self.set_node(v, label, u32::from(a.0));
    }
}
