// A table lent with its accepted sheet, which it fits: what the tests of a table and the calls that follow its predecessors are given.
ghost use Rattle.std.specs.Prelude.{true, false, ◌≡◌, ◌<◌, length};
ghost use Rattle.sheet.specs.Sections.{node_count, arc_count};
ghost use Rattle.sheet.specs.Limits.{node_numbers};
ghost use Rattle.judgement.specs.Judgement.{Accepted};
ghost use Rattle.procedure.specs.OfSheet.{graph_of};
ghost use Rattle.calls.specs.Tables.{long_length, is_long, wrong_length, label_in, predecessor_in};
ghost use Rattle.calls.specs.LongTables.{has_key};
ghost use Rattle.table.specs.Fits.{TableFits, node_before};

use sheet::located::Sheet;
use sheet::{Arc, Node};

// An accepted sheet, and the words of a table that begins with those of the sheet's nodes: a table in either form.
#[derive(Drop)]
pub struct Table<'a> {
    pub sheet: &'a Sheet<'a>,
    pub words: &'a [u32],
    pub ghost fits: { TableFits sheet.now words.now },
}

impl<'a> Table<'a> {
    // The table of a sheet, to whose length refusal 21 does not apply.
    pub fn new(sheet: &'a Sheet<'a>, words: &'a [u32]) -> Self
        requires { Accepted sheet.now × (wrong_length sheet.now words.now ≡ false) }
        ensures { (result.sheet.now ≡ sheet.now) × (result.words.now ≡ words.now) }
    {
        Table { sheet, words }
    }

    // The label of a node.
    pub fn label(&self, v: Node) -> u32
        requires { v.0 < node_count self.now.sheet.now }
        ensures { result ≡ label_in self.now.words.now v.0 }
    {
        crate::read::label_of(self.words, v)
    }

    // The predecessor of a node.
    pub fn predecessor(&self, v: Node) -> u32
        requires { v.0 < node_count self.now.sheet.now }
        ensures { result ≡ predecessor_in self.now.words.now v.0 }
    {
        crate::read::predecessor_of(self.words, v)
    }

    // The node that a node's predecessor, an arc, leads from.
    #[tactic(auto, using(judgement::proofs::Accepted::few_arcs, crate::proofs::read::Columns::before_tail))]
    pub fn previous(&self, v: Node) -> Node
        requires { (v.0 < node_count self.now.sheet.now) × (predecessor_in self.now.words.now v.0 < arc_count self.now.sheet.now) }
        ensures { (result.0 ≡ node_before self.now.sheet.now self.now.words.now v.0) × (result.0 < node_numbers) }
    {
        self.sheet.tail(Arc(self.predecessor(v) as u16))
    }

    // Whether it has the longer form, in which each arc has a word.
    pub fn is_long(&self) -> bool
        ensures { result ≡ is_long self.now.sheet.now self.now.words.now }
    {
        crate::form::is_long(self.sheet, self.words)
    }
}

// A table in the longer form.
#[derive(Drop)]
pub struct LongTable<'a> {
    pub table: Table<'a>,
    pub ghost long: { length table.words.now ≡ long_length (node_count table.sheet.now) (arc_count table.sheet.now) },
}

impl<'a> LongTable<'a> {
    // The table of a sheet, which has the longer length.
    pub fn new(sheet: &'a Sheet<'a>, words: &'a [u32]) -> Self
        requires { Accepted sheet.now × (is_long sheet.now words.now ≡ true) }
        ensures { (result.table.sheet.now ≡ sheet.now) × (result.table.words.now ≡ words.now) }
    {
        LongTable {
            table: Table { sheet, words },
        }
    }

    // Whether an arc's leaf has a key.
    pub fn has_key(&self, a: Arc) -> bool
        requires { a.0 < arc_count self.now.table.sheet.now }
        ensures { result ≡ has_key (graph_of self.now.table.sheet.now) self.now.table.words.now a.0 }
    {
        crate::read::has_key(self.table.sheet.bytes(), self.table.words, a)
    }
}
