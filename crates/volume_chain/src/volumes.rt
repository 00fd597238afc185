// The volumes of a path that are open.
ghost use Rattle.std.specs.Prelude.{◌≡◌, ◌<◌, ◌≤◌, ◌++◌, [], ◌∷◌, length, slice_get, slice_set, Some, IfNone, IfOk, IfSome};
ghost use Rattle.std.specs.Borrow.{sem};
ghost use Rattle.qcow_layer.specs.declared.layer.Layer.{Layer as AnyLayer};
ghost use Rattle.volume_chain.specs.Layers.{IsLayer, IsLayerAt};
ghost use Rattle.volume_chain.specs.Lending.{LendsLayer, LendsLayerOf, LendsVolume};
ghost use Rattle.volume_chain.specs.declared.volumes.OpenVolume.TheVariants as open_volume;
ghost use Rattle.volume_chain.specs.declared.volumes.OpenVolume.TheVariants.{Cow};

use qcow_layer::Layer;
use sd_names::NoMemory;
use std::alloc::Global;
use std::marker::Model;
use std::mem::replace;

/// How many volumes a path can have: a list of volumes has at most 33.
const MOST: usize = 33;

/// A volume of a path that is open.
#[derive(Debug, Drop)]
pub enum OpenVolume {
    /// A raw volume, whose file was so long when its length was asked, in bytes.
    Raw(u64),
    /// A layer, which was found sound.
    Cow(Layer),
}

impl OpenVolume {
    // The layer, lent to be changed.
    fn layer_mut(&mut self) -> &mut Layer
        requires { IsLayer self.old }
        ensures* writes { sem 𝓛 (LendsLayer self.entry result) }
        ensures value { self.old ≡ Cow result.now }
    {
        match self {
            OpenVolume::Cow(layer) => layer,
            OpenVolume::Raw(_) => unreachable!(),
        }
    }
}

/// The first volumes of a path, open, in its order. All room is taken when it is made. A contract sees the list.
#[derive(Debug, Drop)]
pub(crate) struct OpenVolumes {
    volumes: Vec<OpenVolume>,
}

impl Model for OpenVolumes {
    ghost use Rattle.std.specs.Prelude.{List, ◌≤◌, vec_len, vec_capacity};
    ghost use Rattle.volume_chain.specs.declared.volumes.OpenVolume.{OpenVolume};

    ghost Value = { List OpenVolume };

    ghost view = { λ o. o.volumes.items };

    ghost invariant = { λ o. (vec_len o.volumes ≤ 33) × (33 ≤ vec_capacity o.volumes) };
}

impl OpenVolumes {
    /// None, with room for a path.
    pub(crate) fn new(alloc: Global) -> Result<OpenVolumes, NoMemory>
        ensures { IfOk result (λ o. o ≡ []) }
    {
        match Vec::with_capacity(alloc, MOST) {
            Ok(volumes) => Ok(OpenVolumes { volumes }),
            Err(_) => Err(NoMemory),
        }
    }

    /// Puts a volume behind the others. It takes no memory.
    pub(crate) fn push(&mut self, volume: OpenVolume)
        requires { length self.old < 33 }
        ensures { self.new ≡ self.old ++ volume ∷ [] }
    {
        self.volumes.push_reserved(volume)
    }

    // The volume at an index, lent to be changed.
    fn at_mut(&mut self, index: usize) -> &mut OpenVolume
        requires { index < length self.old }
        ensures* writes { sem 𝓛 (LendsVolume self.entry index result) }
        ensures value { slice_get self.old index ≡ Some result.now }
    {
        &mut self.volumes[index]
    }

    /// The layer of the volume at an index, lent to be changed.
    pub(crate) fn layer_mut(&mut self, index: usize) -> &mut Layer
        requires { IsLayerAt self.old index }
        ensures* writes { sem 𝓛 (LendsLayerOf self.entry index result) }
        ensures value { slice_get self.old index ≡ Some (Cow result.now) }
    {
        let volume = self.at_mut(index);
        volume.layer_mut()
    }

    /// The volumes, lent.
    pub(crate) fn as_slice(&self) -> &[OpenVolume]
        ensures list { result.now ≡ self.now }
        ensures few { length result.now ≤ 33 }
    {
        &self.volumes
    }

    /// Takes out the layer at a place, where a raw volume of no bytes stands then. None, and nothing is changed, where no
    /// layer stands there.
    pub(crate) fn take_layer(&mut self, at: usize) -> Option<Layer>
        ensures some { IfSome result (λ layer. slice_get self.old at ≡ Some (open_volume.Cow layer)) }
        ensures room { IfSome result (λ _. at < length self.new) }
        ensures taken { IfSome result (λ _. self.new ≡ slice_set self.old at (open_volume.Raw 0)) }
        ensures none { IfNone result (self.new ≡ self.old) }
        ensures other { IfNone result ((layer : AnyLayer) → slice_get self.old at ≡ Some (open_volume.Cow layer) → ⊥) }
    {
        if at >= self.volumes.len() {
            return None;
        }
        match replace(&mut self.volumes[at], OpenVolume::Raw(0)) {
            OpenVolume::Cow(layer) => Some(layer),
            OpenVolume::Raw(length) => {
                self.volumes[at] = OpenVolume::Raw(length);
                None
            }
        }
    }

    /// Puts a volume at a place.
    pub(crate) fn put(&mut self, at: usize, volume: OpenVolume)
        requires { at < length self.old }
        ensures { self.new ≡ slice_set self.old at volume }
    {
        self.volumes[at] = volume;
    }
}
