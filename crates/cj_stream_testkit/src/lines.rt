//! Lines of streams.

/// A header of 140 bytes, with 21 values and names, and depth 3.
pub const HEADER: &[u8] =
    b"{\"type\":\"CityJSON\",\"version\":\"2.0\",\"transform\":{\"scale\":[0.001,0.001,0.001],\"translate\":[1000.0,2000.0,0.0]},\"CityObjects\":{},\"vertices\":[]}";

/// A feature of 210 bytes, with 44 values and names, and depth 8.
pub const FEATURE: &[u8] =
    b"{\"type\":\"CityJSONFeature\",\"id\":\"b1\",\"CityObjects\":{\"b1\":{\"type\":\"Building\",\"geometry\":[{\"type\":\"MultiSurface\",\"lod\":\"2.2\",\"boundaries\":[[[0,1,2,3]]]}]}},\"vertices\":[[0,0,0],[1000,0,0],[1000,1000,0],[0,1000,0]]}";

/// A feature of 89 bytes, with 13 values and names, and depth 3.
pub const SMALL: &[u8] =
    b"{\"type\":\"CityJSONFeature\",\"id\":\"b\",\"CityObjects\":{\"b\":{\"type\":\"Building\"}},\"vertices\":[]}";

/// The same feature, with its last index, at byte 144, past its four vertices.
pub const BEYOND: &[u8] =
    b"{\"type\":\"CityJSONFeature\",\"id\":\"b1\",\"CityObjects\":{\"b1\":{\"type\":\"Building\",\"geometry\":[{\"type\":\"MultiSurface\",\"lod\":\"2.2\",\"boundaries\":[[[0,1,2,4]]]}]}},\"vertices\":[[0,0,0],[1000,0,0],[1000,1000,0],[0,1000,0]]}";

/// The header with its LF.
pub const FIRST: &[u8] =
    b"{\"type\":\"CityJSON\",\"version\":\"2.0\",\"transform\":{\"scale\":[0.001,0.001,0.001],\"translate\":[1000.0,2000.0,0.0]},\"CityObjects\":{},\"vertices\":[]}\n";

/// The header and the feature, each with its LF.
pub const STREAM: &[u8] =
    b"{\"type\":\"CityJSON\",\"version\":\"2.0\",\"transform\":{\"scale\":[0.001,0.001,0.001],\"translate\":[1000.0,2000.0,0.0]},\"CityObjects\":{},\"vertices\":[]}\n{\"type\":\"CityJSONFeature\",\"id\":\"b1\",\"CityObjects\":{\"b1\":{\"type\":\"Building\",\"geometry\":[{\"type\":\"MultiSurface\",\"lod\":\"2.2\",\"boundaries\":[[[0,1,2,3]]]}]}},\"vertices\":[[0,0,0],[1000,0,0],[1000,1000,0],[0,1000,0]]}\n";

/// A header, a feature, one with its last index past its vertices, and the feature again. The LF at
/// byte 562 ends the run.
pub const THIRD_REFUSED: &[u8] =
    b"{\"type\":\"CityJSON\",\"version\":\"2.0\",\"transform\":{\"scale\":[0.001,0.001,0.001],\"translate\":[1000.0,2000.0,0.0]},\"CityObjects\":{},\"vertices\":[]}\n{\"type\":\"CityJSONFeature\",\"id\":\"b1\",\"CityObjects\":{\"b1\":{\"type\":\"Building\",\"geometry\":[{\"type\":\"MultiSurface\",\"lod\":\"2.2\",\"boundaries\":[[[0,1,2,3]]]}]}},\"vertices\":[[0,0,0],[1000,0,0],[1000,1000,0],[0,1000,0]]}\n{\"type\":\"CityJSONFeature\",\"id\":\"b1\",\"CityObjects\":{\"b1\":{\"type\":\"Building\",\"geometry\":[{\"type\":\"MultiSurface\",\"lod\":\"2.2\",\"boundaries\":[[[0,1,2,4]]]}]}},\"vertices\":[[0,0,0],[1000,0,0],[1000,1000,0],[0,1000,0]]}\n{\"type\":\"CityJSONFeature\",\"id\":\"b1\",\"CityObjects\":{\"b1\":{\"type\":\"Building\",\"geometry\":[{\"type\":\"MultiSurface\",\"lod\":\"2.2\",\"boundaries\":[[[0,1,2,3]]]}]}},\"vertices\":[[0,0,0],[1000,0,0],[1000,1000,0],[0,1000,0]]}\n";

/// A feature of a building with geometries of two LoDs, a road with one of a third, and a lake with
/// none. It has the extent of the usual feature.
pub const SEVERAL: &[u8] =
    b"{\"type\":\"CityJSONFeature\",\"id\":\"b1\",\"CityObjects\":{\"b1\":{\"type\":\"Building\",\"geometry\":[{\"type\":\"MultiPoint\",\"lod\":\"1\",\"boundaries\":[0]},{\"type\":\"MultiPoint\",\"lod\":\"1.2\",\"boundaries\":[1]}]},\"r1\":{\"type\":\"Road\",\"geometry\":[{\"type\":\"MultiPoint\",\"lod\":\"2.2\",\"boundaries\":[2]}]},\"w1\":{\"type\":\"WaterBody\"}},\"vertices\":[[0,0,0],[1000,500,0],[500,1000,0]]}";

/// Returns the feature with an attribute of this text, in parts. The text begins at byte 170, and
/// there are 22 further bytes.
pub fn attributed(text: &[u8]) -> [&[u8]; 5] {
    let (front, back) = (&FEATURE[..150], &FEATURE[150..]);
    [front, b",\"attributes\":{\"a\":\"", text, b"\"}", back]
}
