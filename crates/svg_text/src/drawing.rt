//! A picture that is drawn element by element, and the file that it becomes.

ghost use Rattle.std.specs.Prelude.{◌≡◌, ◌++◌, [], IfOk, OnOk, OnErr};
ghost use Rattle.svg_text.specs.Framing.{framed};
ghost use Rattle.svg_text.specs.Pieces.{line_text, box_text, words_text};
ghost use Rattle.svg_text.specs.Picture.{IsPicture, file_text};

use crate::frame::{Frame, put_head};
use crate::shapes::{Point, Size, put_box, put_line, put_words};
use crate::styles::{Anchor, Face, Fill, Stroke};
use std::alloc::{AllocError, Global};
use std::marker::Model;

/// The elements of a picture, later ones over earlier ones. It is seen as their text.
#[derive(Drop)]
pub struct Drawing {
    text: Vec<u8>,
}

impl Model for Drawing {
    ghost use Rattle.std.specs.Prelude.{List, ℕ};
    ghost use Rattle.svg_text.specs.Picture.{IsPieces};

    ghost Value = { List ℕ };

    ghost view = { λ d. d.text.items };

    ghost invariant = { λ d. IsPieces d.text.items };
}

impl Drawing {
    /// A picture without elements.
    #[tactic(auto, using(crate::proofs::Joining::no_pieces))]
    pub fn new(alloc: Global) -> Drawing
        ensures { result ≡ [] }
    {
        Drawing {
            text: Vec::new(alloc),
        }
    }

    /// Draws a line. Where memory is refused nothing is drawn.
    pub fn line(&mut self, stroke: Stroke, from: Point, to: Point) -> Result<(), AllocError>
        ensures ok { OnOk result (self.new ≡ self.old ++ line_text stroke from to) }
        ensures err { OnErr result (self.new ≡ self.old) }
    {
        let mut piece = Vec::new(*self.text.allocator());
        put_line(&mut piece, stroke, from, to)?;
        self.text.extend_from_slice(piece.as_slice())
    }

    /// Draws a box. Where memory is refused nothing is drawn.
    pub fn rect(&mut self, fill: Fill, corner: Point, size: Size) -> Result<(), AllocError>
        ensures ok { OnOk result (self.new ≡ self.old ++ box_text fill corner size) }
        ensures err { OnErr result (self.new ≡ self.old) }
    {
        let mut piece = Vec::new(*self.text.allocator());
        put_box(&mut piece, fill, corner, size)?;
        self.text.extend_from_slice(piece.as_slice())
    }

    /// Writes words. Where memory is refused nothing is written.
    pub fn words(
        &mut self,
        face: Face,
        anchor: Anchor,
        at: Point,
        words: &[u8],
    ) -> Result<(), AllocError>
        ensures ok { OnOk result (self.new ≡ self.old ++ words_text face anchor at words.now) }
        ensures err { OnErr result (self.new ≡ self.old) }
    {
        let mut piece = Vec::new(*self.text.allocator());
        put_words(&mut piece, face, anchor, at, words)?;
        self.text.extend_from_slice(piece.as_slice())
    }

    /// The file of the picture in this frame.
    pub fn file(&self, frame: &Frame<'_>) -> Result<Vec<u8>, AllocError>
        ensures text { IfOk result (λ file. file.items ≡ file_text (framed frame.now) self.now) }
        ensures picture { IfOk result (λ file. IsPicture (framed frame.now) file.items) }
    {
        let mut file = Vec::new(*self.text.allocator());
        put_head(&mut file, frame)?;
        file.extend_from_slice(self.text.as_slice())?;
        file.extend_from_slice(b"</svg>\n")?;
        Ok(file)
    }
}
