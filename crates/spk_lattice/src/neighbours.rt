//! The neighbours of a site.

ghost use Rattle.std.specs.Prelude.{◌≡◌, ◌≤◌, length};
ghost use Rattle.spk_lattice.specs.Neighbours.{ids_of};

/// The ids of a site's neighbours: of these the first `count` count.
#[derive(Clone, Copy, Debug)]
pub struct Neighbours {
    pub count: u32,
    pub ids: [u32; 26],
}

impl Neighbours {
    /// The ids that count.
    pub fn as_slice(&self) -> &[u32]
        requires { self.now.count ≤ 26 }
        ensures ids { result.now ≡ ids_of self.now }
        ensures count { length result.now ≡ self.now.count }
    {
        &self.ids[..self.count as usize]
    }
}
