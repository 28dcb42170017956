// Colours for light and for dark, and the forms of text.

/// The style of a picture. Whoever knows nothing of dark shows it light.
pub const STYLE: &str = "<style>
svg { color-scheme: light dark; }
text { font: 12px system-ui, sans-serif; fill: #1c2330; }
.title { font-size: 15px; font-weight: 600; }
.faint { fill: #6b7484; }
.again { font-size: 11px; stroke: #ffffff; stroke-width: 3px; paint-order: stroke; }
.paper { fill: #ffffff; }
.band { fill: #f5f7fa; }
.line { stroke: #dfe3ea; }
.mark { fill: #1f4fb5; stroke: #ffffff; stroke-width: 1.5px; }
.cross { stroke: #c22f3d; stroke-width: 1.5px; }
.WAITING { fill: #b9c6dc; }
.EXECUTING { fill: #3f9b5f; }
.FINISHING { fill: #2f8f9d; }
.FAILING { fill: #d9782d; }
.ITERATION_ENDED { fill: #8a6fc0; }
.FINISHED { fill: #e3e7ee; }
.SUCCESS { fill: #2c7a48; }
.FAILURE, .refused { fill: #c22f3d; }
.SKIPPED { fill: #6b7484; }
.INTERRUPTED { fill: #b0561a; }
@media (prefers-color-scheme: dark) {
text { fill: #e4e8ef; }
.faint { fill: #98a2b3; }
.again { stroke: #14181f; }
.paper { fill: #14181f; }
.band { fill: #1a1f28; }
.line { stroke: #2c333f; }
.mark { fill: #86aaff; stroke: #14181f; }
.cross { stroke: #ff7a85; }
.WAITING { fill: #46536b; }
.FINISHED { fill: #2a313c; }
.SUCCESS { fill: #6fce92; }
.FAILURE, .refused { fill: #ff7a85; }
.SKIPPED { fill: #98a2b3; }
.INTERRUPTED { fill: #f0a46a; }
}
</style>
";
