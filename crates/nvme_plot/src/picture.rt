// Pictures.
use crate::legend::{Legend, put_legend};
use crate::panel::{Panel, put_panel};
use crate::pixels::{CHARACTER, Frame, HEIGHT, LEFT, MARGIN, SPAN};
use crate::svg::{Escaped, Stand, put_begin, put_end, put_text_line};
use nvme_output::WriteFault;
use std::io::{self, Write};

// The lower edge of the first note, and from one note to the next, in pixels.
const NOTE: u64 = 44;

const LINE: u64 = 18;

// From the lower edge of the panels to the legend, in pixels.
const BELOW: u64 = 44;

/// A picture: panels side by side, below a title and notes, and a legend of their curves.
#[derive(Debug, Drop)]
pub struct Picture {
    pub title: String,
    /// Lines below the title.
    pub notes: Vec<String>,
    pub panels: Vec<Panel>,
    pub legend: Legend,
}

impl Picture {
    // The upper edge of the panels, in pixels.
    fn top(&self) -> u64 {
        let notes = (self.notes.len() as u64).saturating_mul(LINE);
        NOTE.saturating_add(notes)
    }

    // The upper edge of the legend, in pixels.
    fn legend_top(&self) -> u64 {
        self.top().saturating_add(HEIGHT).saturating_add(BELOW)
    }

    // The width of the picture, in pixels.
    fn width(&self) -> u64 {
        let right = self.legend.right(CHARACTER).max(LEFT + SPAN);
        right.saturating_add(MARGIN)
    }

    // Writes the beginning, with the title and the notes.
    fn put_head<W: Write>(&self, writer: &mut W) -> io::Result<()> {
        let height = self.legend_top().saturating_add(self.legend.height());
        put_begin(self.width(), height.saturating_add(LINE), None, writer)?;
        let title = Escaped(self.title.as_str());
        put_text_line(8, 22, Stand::Sized(16), title, writer)?;
        let mut y = NOTE;
        for note in &self.notes {
            put_text_line(8, y, Stand::Begins, Escaped(note.as_str()), writer)?;
            y = y.saturating_add(LINE);
        }
        Ok(())
    }

    // Writes the panels.
    fn put_panels<W: Write>(&self, writer: &mut W) -> io::Result<()> {
        let count = self.panels.len() as u64;
        for (index, panel) in self.panels.iter().enumerate() {
            let frame = Frame::of(index as u64, count, self.top());
            put_panel(panel, frame, writer)?;
        }
        Ok(())
    }

    // Writes the picture.
    fn put<W: Write>(&self, writer: &mut W) -> io::Result<()> {
        self.put_head(writer)?;
        self.put_panels(writer)?;
        put_legend(&self.legend, self.legend_top(), writer)?;
        put_end(writer)
    }

    /// Writes the picture as SVG. `WriteFault` where a write failed.
    pub fn write_svg<W: Write>(&self, writer: &mut W) -> Result<(), WriteFault> {
        self.put(writer).or(Err(WriteFault))
    }
}
