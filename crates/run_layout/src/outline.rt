// An accepted sheet and how much of a run's arrays it uses: what a layout is made from.
ghost use Rattle.std.specs.Prelude.{◌≡◌};
ghost use Rattle.judgement.specs.Judgement.{Accepted};
ghost use Rattle.procedure.specs.OfSheet.{graph_of};
ghost use Rattle.run_layout.specs.InUse.{Outlined};

use crate::sizes::Sizes;
use sheet::Node;
use sheet::located::Sheet;

// An accepted sheet with its sizes.
#[derive(Drop)]
pub struct Outline<'a> {
    pub sheet: &'a Sheet<'a>,
    pub sizes: Sizes,
    pub ghost outlined: { Outlined sheet.now sizes },
}

impl<'a> Outline<'a> {
    // The outline of a sheet.
    pub fn new(sheet: &'a Sheet<'a>) -> Self
        requires { Accepted sheet.now }
        ensures { result.sheet.now ≡ sheet.now }
    {
        Outline {
            sheet,
            sizes: crate::sizes::sizes_of(sheet),
        }
    }

    // The source.
    pub fn source(&self) -> Node
        ensures { result.0 ≡ (graph_of self.now.sheet.now).source }
    {
        Node(self.sheet.source_number() as u16)
    }
}
