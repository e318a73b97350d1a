// The composition, as numbers.
ghost use Rattle.std.specs.Prelude.{◌≡◌, true, false, Some, None};
ghost use Rattle.video.specs.Composition.{shape_of};
ghost use Rattle.console.specs.Model.{shape_in};
ghost use Rattle.mirror.specs.Codes.{shape_at, layout_in, shape_sound, layout_sound};

use crate::numbers::Layout;
use video::composition::Composition;
use video::format::CursorFormat;

impl Layout {
    // The ranges of a composition hold.
    fn sound(&self) -> bool
        ensures { result ≡ shape_sound self.now }
    {
        (1..=80).contains(&self.columns)
            && (2..=32).contains(&self.retrace)
            && (1..=16).contains(&self.lines)
            && (1..=64).contains(&self.rows)
            && (1..=4).contains(&self.vretrace)
            && self.underline <= 15
    }

    // None where the ranges do not hold.
    fn composed(&self) -> Option<Composition>
        ensures { elim result [
          | None ↦ shape_sound self.now ≡ false
          | Some c ↦ (shape_sound self.now ≡ true) × (shape_of c ≡ shape_at self.now)
        ] }
    {
        if !self.sound() {
            return None;
        }
        Some(Composition {
            columns: self.columns,
            retrace: self.retrace,
            lines: self.lines,
            rows: self.rows,
            vretrace: self.vretrace,
            underline: self.underline,
            opaque: self.opaque != 0,
            offset: self.offset != 0,
            spaced: self.spaced != 0,
            cursor: CursorFormat::from_code(self.cursor),
        })
    }

    // The composition, if there is one; none at all where its ranges do not hold.
    pub(crate) fn composition(&self) -> Option<Option<Composition>>
        ensures { elim result [
          | None ↦ layout_sound self.now ≡ false
          | Some c ↦ (layout_sound self.now ≡ true) × (shape_in c ≡ layout_in self.now)
        ] }
    {
        if self.loaded == 0 {
            return Some(None);
        }
        self.composed().map(Some)
    }
}

impl From<Composition> for Layout {
    ghost from_gives = { λ c l. (layout_sound l ≡ true) × (layout_in l ≡ Some (shape_of c)) };

    fn from(composition: Composition) -> Layout {
        Layout {
            loaded: 1,
            columns: composition.columns,
            retrace: composition.retrace,
            lines: composition.lines,
            rows: composition.rows,
            vretrace: composition.vretrace,
            underline: composition.underline,
            opaque: u8::from(composition.opaque),
            offset: u8::from(composition.offset),
            spaced: u8::from(composition.spaced),
            cursor: composition.cursor as u8,
        }
    }
}

impl From<Option<Composition>> for Layout {
    ghost from_gives = { λ c l. (layout_sound l ≡ true) × (layout_in l ≡ shape_in c) };

    fn from(composition: Option<Composition>) -> Layout {
        composition.map(Layout::from).unwrap_or_default()
    }
}
