// A fixup whose target is known: its sites, their spans, what is written there, and document 01's step. The types and their theory;
// `claim`, `patch`, `follow` and `step` have the code.
#![tactic(auto)]

// What a fixup writes at a site.
#[derive(Clone, Copy)]
pub enum Kind {
    LowByte,
    Selector,
    Far,
    Offset,
}

// A fixup, with the address that its target resolved to.
#[derive(Clone, Copy)]
pub struct Fixup {
    pub kind: Kind,
    pub additive: bool,
    // The site word: the one site, or the first of the chain.
    pub site: u16,
    pub offset: u16,
    pub selector: u16,
}
