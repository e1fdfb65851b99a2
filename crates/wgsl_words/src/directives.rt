// Names in directives: enable-extensions, language extensions and severities.

use crate::lookup::find;
use ir_flags::Capabilities;
use ir_kinds::Severity;

/// The effect of an enable-extension.
pub type Enabled = Capabilities;

static EXTENSIONS: [(&str, Enabled); 14] = [
    ("f16", Capabilities(4)),
    ("dual_source_blending", Capabilities(262144)),
    ("clip_distances", Capabilities(8192)),
    ("primitive_index", Capabilities(32)),
    ("draw_index", Capabilities(17179869184)),
    ("wgpu_mesh_shader", Capabilities(2147483648)),
    ("wgpu_ray_query", Capabilities(134217728)),
    ("wgpu_ray_query_vertex_return", Capabilities(268435456)),
    ("wgpu_ray_tracing_pipeline", Capabilities(536870912)),
    ("wgpu_cooperative_matrix", Capabilities(34359738368)),
    ("wgpu_per_vertex", Capabilities(8589934592)),
    ("wgpu_binding_array", Capabilities(256)),
    ("wgpu_int16", Capabilities(8)),
    ("subgroups", Capabilities(524288)),
];

/// The effect of the enable-extension with this name.
pub fn enable_of(word: &[u8]) -> Option<Enabled> {
    find(&EXTENSIONS, word)
}

static FEATURES: [(&str, ()); 3] = [
    ("readonly_and_readwrite_storage_textures", ()),
    ("packed_4x8_integer_dot_product", ()),
    ("pointer_composite_access", ()),
];

/// Whether there is a language extension with this name.
pub fn is_language_feature(word: &[u8]) -> bool {
    find(&FEATURES, word).is_some()
}

static SEVERITIES: [(&str, Severity); 4] = [
    ("off", Severity::Off),
    ("info", Severity::Info),
    ("warning", Severity::Warning),
    ("error", Severity::Error),
];

/// The severity with this name.
pub fn severity_of(word: &[u8]) -> Option<Severity> {
    find(&SEVERITIES, word)
}
