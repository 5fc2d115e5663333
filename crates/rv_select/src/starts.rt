ghost use Rattle.std.specs.Prelude.{◌≡◌, ◌<◌, ◌^◌};
ghost use Rattle.rv_select.specs.Starts.{start_at};

/// Where the operations of a procedure begin, as indices of code words, and where the last one ends.
#[derive(Debug, Drop)]
pub struct Starts {
    pub places: Vec<u32>,
    pub end: u32,
}

/// The first code word of the operation at a position; where there is none, the end.
pub fn start(starts: &Starts, position: u32) -> u32
    ensures { result ≡ start_at starts.now position }
{
    match starts.places.get(position as usize) {
        Some(place) => *place,
        None => starts.end,
    }
}
