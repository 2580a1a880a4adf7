ghost use Rattle.std.specs.Prelude.{◌≡◌};
ghost use Rattle.triangulations.specs.Triangulations.{Triangulation};
ghost use Rattle.surfaces.specs.Surfaces.{Sound};

use triangulations::darts::Dart;

/// A surface means a lawful triangulation of 2 to 64 edges. Asking it changes nothing.
pub trait Surface {
    ghost triangulation: { Self → Triangulation };

    /// How many edges there are.
    fn edges(&self) -> u8
        ensures { result ≡ (triangulation self.now).edges };

    /// The dart that follows `dart` counterclockwise in its triangle, or `None` for a dart that lies outside or does not exist.
    fn after(&self, dart: Dart) -> Option<Dart>
        ensures { result ≡ (triangulation self.now).next dart };

    ghost sound: { (s : Self) → Sound (triangulation s) };
}
