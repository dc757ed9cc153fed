// Laws without code: the tables that contours and isobands write are a ring set that number 9 does not refuse. The text of such a set has each polygon once and
// each hole that is not dropped once, and every ring that has an area runs the way that RFC 7946 wants.
#![tactic(auto)]
