// What locating reads of the lent tables: the directory's words and the chunks', in which the chain and the index are right.
ghost use Rattle.locating.specs.Charted.{Charted};

use rules::Sizes;

#[derive(Clone, Copy)]
pub struct Chart<'a> {
    pub z: Sizes,
    pub directory: &'a [u64],
    pub chunks: &'a [u64],
    ghost charted: { Charted z directory.now chunks.now },
}
