//! How the parts of a picture are drawn. Kinds of event differ by the shapes of their marks, and what is pale is
//! thin and dashed too, so that nothing rests on colours.

/// The beginning of the document, up to its size.
pub const NAMESPACE: &str = "<svg xmlns='http://www.w3.org/2000/svg' ";

/// How letters, lanes, arrows and marks look.
pub const STYLE: &str = "\
<style>
svg{background:white}
text{font:12px Arial,Helvetica,sans-serif;text-anchor:middle;paint-order:stroke;stroke:white;stroke-width:2px}
path,use{fill:none;stroke:black;stroke-width:1.3px}
.lane text,.register text,.holds text,.heading,.beside{text-anchor:start}
.lane .input,.note,.beside{font-size:10px}
.lane path,.register path{stroke-width:1px}
.register path{stroke-dasharray:1 3}
.copy,.read{marker-end:url(#tip)}
.read{marker-start:url(#dot)}
.write{marker-end:url(#end)}
.wait path{stroke-dasharray:2 2}
.decision,.beside{font-weight:bold}
.bold text{font-weight:bold}
path.bold,.bold use{stroke-width:3px}
.pale{opacity:.5;color:#ccc}
path.pale,.pale use{stroke-width:.7px;stroke-dasharray:3 2}
</style>
";

/// The tips of the arrows, and a shape for each kind of event.
pub const SHAPES: &str = "\
<defs>
<marker id='tip' viewBox='0 0 8 8' refX='15' refY='4' markerWidth='8' markerHeight='8' \
markerUnits='userSpaceOnUse' orient='auto'><path d='M0,0L8,4L0,8z' style='fill:black;stroke:none'/></marker>
<marker id='end' viewBox='0 0 8 8' refX='8' refY='4' markerWidth='8' markerHeight='8' \
markerUnits='userSpaceOnUse' orient='auto'><path d='M0,0L8,4L0,8z' style='fill:black;stroke:none'/></marker>
<marker id='dot' viewBox='0 0 8 8' refX='4' refY='4' markerWidth='6' markerHeight='6' \
markerUnits='userSpaceOnUse'><circle cx='4' cy='4' r='4' style='fill:black;stroke:none'/></marker>
<g id='query'><path d='M0,-8L8,0L0,8L-8,0z' style='fill:white'/></g>
<g id='send'><path d='M-6,-7L8,0L-6,7z' style='fill:currentColor'/></g>
<g id='recv'><circle r='6.5' style='fill:white'/></g>
<g id='read'><path d='M-6,-6h12v12h-12z' style='fill:white'/></g>
<g id='write'><path d='M-6,-6h12v12h-12z' style='fill:currentColor'/></g>
<g id='local'><circle r='4' style='fill:currentColor'/></g>
<g id='learn'><path d='M0,-8L8,6L-8,6z' style='fill:white'/></g>
<g id='crash'><path d='M0,-12v24' style='stroke-width:5px'/></g>
<g id='lost'><path d='M-6,-6L6,6M-6,6L6,-6' style='stroke-width:2.4px'/></g>
<g id='decided'><circle r='10.5'/></g>
</defs>
";
