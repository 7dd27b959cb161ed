// Why a call refuses.
ghost use Rattle.std.specs.Prelude.{◌≡◌};
ghost use Rattle.terms.specs.RefusalNumbers.{number_of};

// What is wrong with what a call was handed. Each refusal has its fixed number, which C programs and the command give.
#[derive(Clone, Copy, Debug, PartialEq, Eq)]
pub enum Refusal {
    Dimension = 1,
    TooManyPoints = 2,
    PointsLength = 3,
    ShortBuffer = 4,
    CoordinateRange = 5,
    TooManyFaces = 6,
    FacesLength = 7,
    FaceRange = 8,
    NotTheTree = 9,
    Text = 10,
    Marks = 11,
    ValueRange = 12,
    RegionCount = 14,
    LiveBytes = 15,
    NoneDead = 16,
    NotLive = 17,
}

impl Refusal {
    // The refusal's number.
    pub fn number(self) -> u32
        ensures { result ≡ number_of self }
    {
        self as u32
    }
}
