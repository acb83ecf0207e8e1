//! How lines, boxes and words look: black and white alone, told apart by dashes and widths.

ghost use Rattle.std.specs.Prelude.{◌≡◌};
ghost use Rattle.svg_text.specs.Styles.{anchor_style, face_style, fill_style, stroke_style};

/// How a line is drawn.
#[derive(Clone, Copy, PartialEq, Eq)]
pub enum Stroke {
    /// A plain line.
    Solid,
    /// A line of short dashes.
    Dotted,
    /// A line of long dashes.
    Dashed,
    /// A plain line with an arrowhead at its end.
    Arrow,
    /// A broad line.
    Broad,
    /// A pale line after all others.
    Pale,
}

/// How a box is drawn.
#[derive(Clone, Copy, PartialEq, Eq)]
pub enum Fill {
    /// White, with a border.
    Bordered,
    /// White, with a dashed border.
    DashedBorder,
    /// White alone.
    Blank,
}

/// How words are drawn.
#[derive(Clone, Copy, PartialEq, Eq)]
pub enum Face {
    /// Large and bold.
    Heading,
    /// Bold.
    Bold,
    /// As they are.
    Plain,
    /// As they are, with a white edge that keeps them apart from lines after them.
    Edged,
}

/// Which part of words stands at their place.
#[derive(Clone, Copy, PartialEq, Eq)]
pub enum Anchor {
    /// Their beginning.
    Start,
    /// Their middle.
    Middle,
    /// Their end.
    End,
}

impl Stroke {
    #[tactic(auto, unfolding(crate::specs::Styles::stroke_style))]
    pub(crate) fn style(self) -> &'static [u8]
        ensures { result.now ≡ stroke_style self }
    {
        match self {
            Stroke::Solid => b" stroke=\"black\" stroke-width=\"1.5\"",
            Stroke::Dotted => b" stroke=\"black\" stroke-width=\"1.5\" stroke-dasharray=\"3 5\"",
            Stroke::Dashed => b" stroke=\"black\" stroke-width=\"1.5\" stroke-dasharray=\"9 5\"",
            Stroke::Arrow => b" stroke=\"black\" stroke-width=\"1.5\" marker-end=\"url(#head)\"",
            Stroke::Broad => b" stroke=\"black\" stroke-width=\"2.5\"",
            Stroke::Pale => b" stroke=\"#bbb\"",
        }
    }
}

impl Fill {
    #[tactic(auto, unfolding(crate::specs::Styles::fill_style))]
    pub(crate) fn style(self) -> &'static [u8]
        ensures { result.now ≡ fill_style self }
    {
        match self {
            Fill::Bordered => b" fill=\"white\" stroke=\"black\" stroke-width=\"1.5\"",
            Fill::DashedBorder => b" fill=\"white\" stroke=\"black\" stroke-dasharray=\"9 5\"",
            Fill::Blank => b" fill=\"white\"",
        }
    }
}

impl Face {
    #[tactic(auto, unfolding(crate::specs::Styles::face_style))]
    pub(crate) fn style(self) -> &'static [u8]
        ensures { result.now ≡ face_style self }
    {
        match self {
            Face::Heading => b" font-size=\"18\" font-weight=\"bold\"",
            Face::Bold => b" font-weight=\"bold\"",
            Face::Plain => b"",
            Face::Edged => b" paint-order=\"stroke\" stroke=\"white\" stroke-width=\"5\"",
        }
    }
}

impl Anchor {
    #[tactic(auto, unfolding(crate::specs::Styles::anchor_style))]
    pub(crate) fn style(self) -> &'static [u8]
        ensures { result.now ≡ anchor_style self }
    {
        match self {
            Anchor::Start => b"",
            Anchor::Middle => b" text-anchor=\"middle\"",
            Anchor::End => b" text-anchor=\"end\"",
        }
    }
}
