ghost use Rattle.std.specs.Prelude.{◌≡◌, ◌<◌, ◌≤◌, Some, length, slice_get};

use predictor::PredictorImage;
use std::marker::Model;

/// What predictors of one to four kinds have learnt.
#[derive(Debug, Drop)]
pub struct Images {
    list: Vec<PredictorImage>,
}

impl Model for Images {
    ghost use Rattle.std.specs.Prelude.{List};
    ghost use Rattle.predictor.specs.Tables.{Tables};

    ghost Value = { List Tables };

    ghost use Rattle.std.specs.Prelude.{◌≤◌, length};

    ghost view = { λ fields. fields.list.items };

    ghost invariant = { λ fields. (1 ≤ length fields.list.items) × (length fields.list.items ≤ 4) };
}

impl Images {
    /// These images, one for each kind, in the order of the kinds.
    pub fn from_list(images: Vec<PredictorImage>) -> Images
        requires least { 1 ≤ length images.items }
        requires most { length images.items ≤ 4 }
        ensures { result ≡ images.items }
    {
        Images { list: images }
    }

    pub fn len(&self) -> usize
        ensures value { result ≡ length self.now }
        ensures least { 1 ≤ result }
        ensures most { result ≤ 4 }
    {
        self.list.len()
    }

    /// The image at a place, counted from 0.
    pub fn at(&self, index: usize) -> &PredictorImage
        requires { index < length self.now }
        ensures { slice_get self.now index ≡ Some result.now }
    {
        &self.list[index]
    }
}
