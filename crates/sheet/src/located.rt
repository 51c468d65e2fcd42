// A sheet with its sections: what the functions that look at nodes, spans, holds and arcs are lent. Clauses see its bytes.
ghost use Rattle.std.specs.Prelude.{◌≡◌, ◌+◌, ◌≤◌, ◌<◌, List, ℕ};
ghost use Rattle.sheet.specs.Words.{words, payload};
ghost use Rattle.sheet.specs.Sections.{node_count, source, span_count, span, hold_count, arc_count, regions_at};
ghost use Rattle.sheet.specs.Inner.{Located};
ghost use Rattle.sheet.specs.Arcs.{ends_word, arc_length, tail, head, hold, charged, taken_length};
ghost use Rattle.sheet.specs.Limits.{node_numbers};

use crate::{Arc, Node, Sections};
use std::marker::Model;

// How many numbers the field of a node has, by which a payload is taken apart.
const NODES: u32 = crate::NODE_NUMBERS as u32;

// The bytes of a sheet that has its first two words, and its sections.
#[derive(Drop)]
pub struct Sheet<'a> {
    bytes: &'a [u8],
    sections: Sections,
}

impl<'a> Model for Sheet<'a> {
    ghost Value = { List ℕ };

    ghost view = { λ s. s.bytes.now };

    ghost invariant = { λ s. Located s.bytes.now s.sections };
}

impl<'a> Sheet<'a> {
    // Finds the sections.
    pub fn new(bytes: &'a [u8]) -> Self
        requires { 2 ≤ words bytes.now }
        ensures { result ≡ bytes.now }
    {
        let sections = crate::scan::find_sections(bytes);
        Sheet { bytes, sections }
    }

    // The bytes.
    pub fn bytes(&self) -> &'a [u8]
        ensures bytes { result.now ≡ self.now }
        ensures front { 2 ≤ words self.now }
    {
        self.bytes
    }

    // The node count.
    pub fn node_count(&self) -> u32
        ensures { result ≡ node_count self.now }
    {
        crate::payload_at(self.bytes, 0)
    }

    // The source's number.
    pub fn source_number(&self) -> u32
        ensures { result ≡ source self.now }
    {
        crate::payload_at(self.bytes, 1)
    }

    // How many spans there are.
    pub fn spans(&self) -> usize
        ensures { result ≡ span_count self.now }
    {
        self.sections.spans
    }

    // The span at place k, which is for height k + 1.
    pub fn span(&self, k: usize) -> u32
        requires { 2 + k < words self.now }
        ensures { result ≡ span self.now k }
    {
        crate::payload_at(self.bytes, 2 + k)
    }

    // How many holds there are.
    pub fn holds(&self) -> usize
        ensures { result ≡ hold_count self.now }
    {
        self.sections.first - 2 - self.sections.spans
    }

    // How many arcs there are.
    pub fn arcs(&self) -> usize
        ensures { result ≡ arc_count self.now }
    {
        self.sections.arcs
    }

    // The word after the last arc.
    pub fn after(&self) -> usize
        ensures { result ≡ regions_at self.now }
    {
        self.sections.after
    }

    // The payload of the first word of an arc: its two ends.
    pub fn ends_payload(&self, a: Arc) -> u32
        requires { a.0 < arc_count self.now }
        ensures { result ≡ payload self.now (ends_word self.now a.0) }
    {
        let i = a.0 as usize;
        crate::payload_at(self.bytes, self.sections.first + 2 * i)
    }

    // The tail of an arc.
    pub fn tail(&self, a: Arc) -> Node
        requires { a.0 < arc_count self.now }
        ensures { (result.0 ≡ tail self.now a.0) × (result.0 < node_numbers) }
    {
        Node((self.ends_payload(a) / NODES % NODES) as u16)
    }

    // The head of an arc.
    pub fn head(&self, a: Arc) -> Node
        requires { a.0 < arc_count self.now }
        ensures { (result.0 ≡ head self.now a.0) × (result.0 < node_numbers) }
    {
        Node((self.ends_payload(a) % NODES) as u16)
    }

    // The length of an arc.
    pub fn length(&self, a: Arc) -> u32
        requires { a.0 < arc_count self.now }
        ensures { result ≡ arc_length self.now a.0 }
    {
        let i = a.0 as usize;
        crate::payload_at(self.bytes, self.sections.first + 2 * i + 1)
    }

    // The hold at a node: 0 in a sheet that carries none.
    fn hold(&self, v: Node) -> u32
        ensures { result ≡ hold self.now v.0 }
    {
        let i = v.0 as usize;
        if i < self.holds() {
            return crate::payload_at(self.bytes, 2 + self.sections.spans + i);
        }
        0
    }

    // What passing a node takes: its hold, but at the source nothing.
    fn charged(&self, v: Node) -> u32
        ensures { result ≡ charged self.now v.0 }
    {
        if v.0 as u32 == self.source_number() {
            return 0;
        }
        self.hold(v)
    }

    // The length of an arc with its tail's hold added, which the procedure takes. In a sheet without holds the tail is not looked at.
    pub fn taken_length(&self, a: Arc) -> u32
        requires { a.0 < arc_count self.now }
        ensures { result ≡ taken_length self.now a.0 }
    {
        let length = self.length(a);
        if self.holds() == 0 {
            return length;
        }
        length + self.charged(self.tail(a))
    }
}
