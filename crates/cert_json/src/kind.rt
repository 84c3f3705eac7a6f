//! The kinds of nodes, and the words that begin them.

ghost use Rattle.std.specs.Prelude.{◌≡◌};

#[derive(Clone, Copy)]
pub(crate) enum NodeKind {
    Linear,
    Residue,
    Split,
    Present,
    Twin,
    Trap,
    Siphon,
    Open,
    First,
}

impl NodeKind {
    ghost use Rattle.cert_json.specs.Kinds.{kind_text, kind_named};

    pub(crate) fn named(text: &str) -> Option<NodeKind>
        ensures { result ≡ kind_named text.now }
    {
        match text {
            "lin" => Some(NodeKind::Linear),
            "residue" => Some(NodeKind::Residue),
            "split" => Some(NodeKind::Split),
            "present" => Some(NodeKind::Present),
            "twin" => Some(NodeKind::Twin),
            "trap" => Some(NodeKind::Trap),
            "siphon" => Some(NodeKind::Siphon),
            "open" => Some(NodeKind::Open),
            "first" => Some(NodeKind::First),
            _ => None,
        }
    }

    pub(crate) fn text(self) -> &'static str
        ensures { result.now ≡ kind_text self }
    {
        match self {
            NodeKind::Linear => "lin",
            NodeKind::Residue => "residue",
            NodeKind::Split => "split",
            NodeKind::Present => "present",
            NodeKind::Twin => "twin",
            NodeKind::Trap => "trap",
            NodeKind::Siphon => "siphon",
            NodeKind::Open => "open",
            NodeKind::First => "first",
        }
    }
}
