//! Pictures as SVG: the elements of any, and pictures of curves, with axes of round ticks, linear or logarithmic, error bars and a
//! legend. There is no float, so that a picture has the same bytes wherever it is drawn. It knows nothing of what is drawn.
#![tactic(auto)]

mod axis;
mod colours;
mod curve;
mod legend;
mod logarithm;
mod panel;
mod picture;
mod pixels;
mod place;
mod rounds;
mod scale;
mod svg;
mod words;

pub use axis::{Axis, Tick, WHOLE, Written};
pub use colours::{BLACK, BLUE, GREEN, LINES, ORANGE, PURPLE, SKY, VERMILION};
pub use curve::{Bar, Curve, Mark, Point};
pub use legend::{Entry, Legend};
pub use logarithm::log2;
pub use nvme_output::WriteFault;
pub use panel::{Guide, Panel};
pub use picture::Picture;
pub use pixels::{HUNDREDTHS, SPAN, Tenths, span_of};
pub use rounds::stride_of;
pub use scale::{Range, Scale};
pub use svg::{
    AXIS, Escaped, GRID, Stand, Stroke, put_begin, put_dot, put_end, put_path, put_path_line,
    put_text, put_text_line, put_tip,
};
pub use words::{Grouped, Micros};
