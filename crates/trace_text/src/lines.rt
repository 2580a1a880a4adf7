ghost use Rattle.std.specs.Prelude.{◌≡◌, Some};
ghost use Rattle.triangulations.specs.Meaning.{meant};
ghost use Rattle.trace_text.specs.Lines.{refused_text, surface_text, name_of, triangle_text, made_text, exchange_text, step_text};

use crate::triangles::Triangle;
use case_file::refusal::Refusal;
use case_file::surface_section::CaseSurface;
use std::fmt;
use triangulations::step::{Flip, Label, Side, Step};

/// The line of a refusal.
#[derive(Clone, Copy, PartialEq, Eq, Debug)]
pub struct RefusalLine(pub Refusal);

impl fmt::Display for RefusalLine {
    ghost output = { λ line. Some (refused_text line.0) };

    fn fmt<W: fmt::Write>(&self, f: &mut fmt::Formatter<W>) -> fmt::Result {
        let number = self.0.number();
        let layer = self.0.layer();
        let place = self.0.place();
        writeln!(f, "REFUSED {number} {layer} {place}")
    }
}

/// The name of a surface, and what it is counted by.
#[derive(Clone, Copy, PartialEq, Eq, Debug)]
pub enum SurfaceName {
    Torus { punctures: u8 },
    Polygon { corners: u8 },
}

// By hand: a clause says what the name is, and a derive has no contract.
impl From<CaseSurface> for SurfaceName {
    ghost from_gives = { λ surface name. name ≡ name_of surface };

    fn from(surface: CaseSurface) -> SurfaceName {
        match surface {
            CaseSurface::Torus(torus) => SurfaceName::Torus {
                punctures: torus.punctures(),
            },
            CaseSurface::Polygon(polygon) => SurfaceName::Polygon {
                corners: polygon.corners(),
            },
        }
    }
}

impl fmt::Display for SurfaceName {
    ghost output = { λ name. Some (surface_text name) };

    fn fmt<W: fmt::Write>(&self, f: &mut fmt::Formatter<W>) -> fmt::Result {
        match self {
            SurfaceName::Torus { punctures } => write!(f, "torus, m = {punctures}"),
            SurfaceName::Polygon { corners } => write!(f, "polygon, n = {corners}"),
        }
    }
}

/// The darts of a triangle.
impl fmt::Display for Triangle {
    ghost output = { λ triangle. Some (triangle_text triangle) };

    fn fmt<W: fmt::Write>(&self, f: &mut fmt::Formatter<W>) -> fmt::Result {
        let Triangle {
            first,
            second,
            third,
        } = self;
        write!(f, "{first} {second} {third}")
    }
}

/// What a flip made.
#[derive(Clone, Copy, PartialEq, Eq, Debug)]
pub struct Made {
    pub low: Triangle,
    pub high: Triangle,
}

impl fmt::Display for Made {
    ghost output = { λ made. Some (made_text (made.low, made.high)) };

    fn fmt<W: fmt::Write>(&self, f: &mut fmt::Formatter<W>) -> fmt::Result {
        let Made { low, high } = self;
        write!(f, " makes {low} and {high}")
    }
}

/// The darts that a label step exchanged.
#[derive(Clone, Copy, PartialEq, Eq, Debug)]
pub struct Exchange(pub Label);

impl fmt::Display for Exchange {
    ghost output = { λ exchange. Some (exchange_text exchange.0) };

    fn fmt<W: fmt::Write>(&self, f: &mut fmt::Formatter<W>) -> fmt::Result {
        match self.0 {
            Label::Turn(e) => {
                let e = u16::from(e);
                write!(f, " exchanges {} and {}", 2 * e, 2 * e + 1)
            }
            Label::Swap(e, g) => {
                let e = u16::from(e);
                let g = u16::from(g);
                write!(
                    f,
                    " exchanges {} and {}, {} and {}",
                    2 * e,
                    2 * g,
                    2 * e + 1,
                    2 * g + 1
                )
            }
        }
    }
}

/// The letter and the names of a step.
#[derive(Clone, Copy, PartialEq, Eq, Debug)]
pub struct StepName(pub Step);

impl fmt::Display for StepName {
    ghost output = { λ name. Some (step_text (meant name.0)) };

    fn fmt<W: fmt::Write>(&self, f: &mut fmt::Formatter<W>) -> fmt::Result {
        match self.0 {
            Step::Flip(Flip { side, edge }) => {
                let letter = match side {
                    Side::Left => 'L',
                    Side::Right => 'R',
                };
                write!(f, "{letter} {edge}")
            }
            Step::Label(Label::Turn(e)) => write!(f, "T {e}"),
            Step::Label(Label::Swap(e, g)) => write!(f, "S {e} {g}"),
        }
    }
}
